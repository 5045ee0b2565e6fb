// The name of a character in a lent table: the bytes of the names of a range of characters one after the other, and the offset at which each starts and
// the last one ends. A character that has none has no bytes there.
ghost use Rattle.std.specs.Prelude.{◌≡◌, ◌+◌, ◌-◌, ◌≤◌, ◌<◌, T, length};
ghost use Rattle.rules.specs.Utf8.{utf8};
ghost use Rattle.rules.specs.Ascii.{name_of};
ghost use Rattle.rules.specs.Browsing.{given};
ghost use Rattle.names_written.specs.Ties.{Puts, is_tied};

// Copies the name of a character to the start of `room`, leaves the bytes after it as they were, and returns its length, 0 if it has none. `low` is the
// first character of the table. The offsets lie beside the bytes: a slice for each name would take eight times their memory.
pub fn put_named(code: u32, low: u32, bytes: &[u8], offsets: &[u16], room: &mut [u8]) -> usize
    requires { (low ≤ code) × (code - low + 1 < length offsets.now) × (code ≤ 0x10FFFF) × (20 ≤ length room.old) × T (is_tied low bytes.now offsets.now) }
    ensures { Puts (given (name_of (utf8 code))) result room.old room.new × (result ≤ 20) }
{
    let at = (code - low) as usize;
    let a = offsets[at] as usize;
    let e = offsets[at + 1] as usize;
    base::put(&bytes[a..e], room)
}
