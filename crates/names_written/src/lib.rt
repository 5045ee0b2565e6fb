// The name of a character above 7F, as it is written: the shortest of the table, and of several as short the first by bytes.
#![tactic(auto)]

ghost use Rattle.std.specs.Prelude.{◌≤◌, length};
ghost use Rattle.rules.specs.Utf8.{utf8};
ghost use Rattle.rules.specs.Ascii.{name_of};
ghost use Rattle.rules.specs.Browsing.{given};
ghost use Rattle.names_written.specs.Ties.{Puts};

mod choice;
mod place;
mod table;

// Copies the name of a character above 7F to the start of `room`, leaves the bytes after it as they were, and returns its length, 0 if it has none. No
// name has more than 20 bytes. The length is that of what was written: without a name nothing is.
pub fn put_name(code: u32, room: &mut [u8]) -> usize
    requires { (0x80 ≤ code) × (code ≤ 0x10FFFF) × (20 ≤ length room.old) }
    ensures { Puts (given (name_of (utf8 code))) result room.old room.new × (result ≤ 20) }
{
    if code < 0x300 {
        return choice::put_from_80(code, room);
    }
    if code < 0x2160 {
        return choice::put_from_300(code, room);
    }
    if code < 0x2300 {
        return choice::put_from_2160(code, room);
    }
    if code < 0x2800 {
        return choice::put_from_2300(code, room);
    }
    if code < 0x2A80 {
        return choice::put_from_2800(code, room);
    }
    choice::put_from_2a80(code, room)
}
