// Made by tools/make_names.py from the entries of crates/rules/specs/Names.antt; not to be edited.
// The choice of a table by the range that a character is in.
ghost use Rattle.std.specs.Prelude.{◌≡◌, ◌≤◌, length};
ghost use Rattle.rules.specs.Bytes.{inside};
ghost use Rattle.rules.specs.Utf8.{utf8};
ghost use Rattle.rules.specs.Ascii.{name_of};
ghost use Rattle.rules.specs.Browsing.{given};
ghost use Rattle.names_written.specs.Ties.{Puts};

use crate::table;

// Reports whether a character is from `low` to `high`.
fn is_among(low: u32, high: u32, code: u32) -> bool
    ensures { result ≡ inside (low, high) code }
{
    (low <= code) & (code <= high)
}

// Copies the name of a character from U+0080 to U+02FF, as `put_name` does.
pub fn put_from_80(code: u32, room: &mut [u8]) -> usize
    requires { (0x80 ≤ code) × (code ≤ 0x2FF) × (20 ≤ length room.old) }
    ensures { Puts (given (name_of (utf8 code))) result room.old room.new × (result ≤ 20) }
{
    if is_among(0xA0, 0xFF, code) {
        return table::from_a0(code, room);
    }
    if is_among(0x100, 0x17E, code) {
        return table::from_100(code, room);
    }
    if is_among(0x192, 0x2DD, code) {
        return table::from_192(code, room);
    }
    0
}

// Copies the name of a character from U+0300 to U+215F, as `put_name` does.
pub fn put_from_300(code: u32, room: &mut [u8]) -> usize
    requires { (0x300 ≤ code) × (code ≤ 0x215F) × (20 ≤ length room.old) }
    ensures { Puts (given (name_of (utf8 code))) result room.old room.new × (result ≤ 20) }
{
    if is_among(0x311, 0x45F, code) {
        return table::from_311(code, room);
    }
    if is_among(0x2002, 0x20DC, code) {
        return table::from_2002(code, room);
    }
    if is_among(0x2102, 0x215E, code) {
        return table::from_2102(code, room);
    }
    0
}

// Copies the name of a character from U+2160 to U+22FF, as `put_name` does.
pub fn put_from_2160(code: u32, room: &mut [u8]) -> usize
    requires { (0x2160 ≤ code) × (code ≤ 0x22FF) × (20 ≤ length room.old) }
    ensures { Puts (given (name_of (utf8 code))) result room.old room.new × (result ≤ 20) }
{
    if is_among(0x2190, 0x21FF, code) {
        return table::from_2190(code, room);
    }
    if is_among(0x2200, 0x227F, code) {
        return table::from_2200(code, room);
    }
    if is_among(0x2280, 0x22FE, code) {
        return table::from_2280(code, room);
    }
    0
}

// Copies the name of a character from U+2300 to U+27FF, as `put_name` does.
pub fn put_from_2300(code: u32, room: &mut [u8]) -> usize
    requires { (0x2300 ≤ code) × (code ≤ 0x27FF) × (20 ≤ length room.old) }
    ensures { Puts (given (name_of (utf8 code))) result room.old room.new × (result ≤ 20) }
{
    if is_among(0x2305, 0x24C8, code) {
        return table::from_2305(code, room);
    }
    if is_among(0x2500, 0x25FC, code) {
        return table::from_2500(code, room);
    }
    if is_among(0x2605, 0x27FF, code) {
        return table::from_2605(code, room);
    }
    0
}

// Copies the name of a character from U+2800 to U+2A7F, as `put_name` does.
pub fn put_from_2800(code: u32, room: &mut [u8]) -> usize
    requires { (0x2800 ≤ code) × (code ≤ 0x2A7F) × (20 ≤ length room.old) }
    ensures { Puts (given (name_of (utf8 code))) result room.old room.new × (result ≤ 20) }
{
    if is_among(0x2902, 0x297F, code) {
        return table::from_2902(code, room);
    }
    if is_among(0x2985, 0x29F6, code) {
        return table::from_2985(code, room);
    }
    if is_among(0x2A00, 0x2A7F, code) {
        return table::from_2a00(code, room);
    }
    0
}

// Copies the name of a character from U+2A80 to U+10FFFF, as `put_name` does.
pub fn put_from_2a80(code: u32, room: &mut [u8]) -> usize
    requires { (0x2A80 ≤ code) × (code ≤ 0x10FFFF) × (20 ≤ length room.old) }
    ensures { Puts (given (name_of (utf8 code))) result room.old room.new × (result ≤ 20) }
{
    if is_among(0x2A80, 0x2AFD, code) {
        return table::from_2a80(code, room);
    }
    if is_among(0xFB00, 0xFB04, code) {
        return table::from_fb00(code, room);
    }
    if is_among(0x1D49C, 0x1D56B, code) {
        return table::from_1d49c(code, room);
    }
    0
}
