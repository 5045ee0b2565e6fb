// Reads a unit of ascii_quoted, a reference that stands exactly as encode writes it.
ghost use Rattle.std.specs.Prelude.{◌≡◌, ℕ, ◌≤◌, ◌<◌, length, drop, get_or};
ghost use Rattle.rules.specs.Bytes.{over};
ghost use Rattle.rules.specs.Reading.{read_step};
ghost use Rattle.rules.specs.declared.Context.TheVariants.{InAscii};
ghost use Rattle.names_written.specs.Ties.{Puts};
ghost use Rattle.rules.specs.References.{scalar};
ghost use Rattle.read_ascii.specs.Units.{unit_for, HasNumber, Exactly, Tells};

use decode_html::entity;
use encode_ascii::characters;
use rules::Escape;

// Writes the unit of a character to the start of `room` and returns its length, 0 if it is copied: nothing is written then.
fn put_unit(code: u32, room: &mut [u8]) -> usize
    requires { (code ≤ 0x10FFFF) × (32 ≤ length room.old) }
    ensures { Puts (unit_for code) result room.old room.new × (result ≤ 22) }
{
    if 0x80 <= code {
        return characters::put_reference(code, room);
    }
    characters::put_quoted(code, room)
}

// Returns the number of the character with which `bytes` begin; any number if they begin with none.
fn code_of(bytes: &[u8]) -> u32
    requires { 4 ≤ length bytes.now }
    ensures { HasNumber bytes.now result × (result ≤ 0x1FFFFF) }
{
    let first = bytes[0] as u32;
    let second = bytes[1] as u32 % 64;
    let third = bytes[2] as u32 % 64;
    let fourth = bytes[3] as u32 % 64;
    if first < 0x80 {
        return first;
    }
    if first < 0xE0 {
        return first % 32 * 64 + second;
    }
    if first < 0xF0 {
        return first % 16 * 4096 + second * 64 + third;
    }
    first % 8 * 262144 + second * 4096 + third * 64 + fourth
}

// Reports whether a number is that of a character.
fn is_scalar(code: u32) -> bool
    ensures { result ≡ scalar code }
{
    if 0x10FFFF < code {
        return false;
    }
    if code < 0xD800 {
        return true;
    }
    0xDFFF < code
}

// Returns the character of a number if its unit stands at offset `at`.
fn exact_unit(code: u32, text: &[u8], at: usize) -> Option<Escape>
    requires { (code ≤ 0x10FFFF) × (at ≤ length text.now) }
    ensures { Exactly code (drop at text.now) result }
{
    let mut room: [u8; 32] = [0; 32];
    let n = put_unit(code, &mut room);
    if n == 0 {
        return None;
    }
    if base::prefix::starts(&room[..n], &text[at..]) {
        return Some(Escape {
            taken: n,
            character: code,
        });
    }
    None
}

// Reads the unit at the `&` at offset `at`: the character that the reference stands for in decode, if its unit stands there.
pub fn read_unit(text: &[u8], at: usize) -> Option<Escape>
    requires { (at < length text.now) × (get_or text.now at 0 ≡ 38) }
    ensures { (p : ℕ) → Tells (read_step InAscii p (drop at text.now)) (drop at text.now) result }
{
    let Ok(found) = entity::find_decoded_entity(text, at) else {
        return None;
    };
    let value = found.value;
    let mut bytes: [u8; 8] = [0; 8];
    decode_html::characters::put_value(value, &mut bytes);
    let code = code_of(&bytes);
    if is_scalar(code) {
        return exact_unit(code, text, at);
    }
    None
}
