// The units of a string. What is read off a unit has no branch, as no branch could guess which unit comes next.
// The bytes of an escape are handed on one by one: as a slice they would pass through memory at each unit.
ghost use Rattle.std.specs.Prelude.{true, ◌≡◌, [], ◌∷◌, ◌+◌, ◌≤◌, ◌<◌, length, get_or};
ghost use Rattle.rules.specs.Bytes.{over};
ghost use Rattle.read_strings.specs.Clear.{keys_of, Fresh};
ghost use Rattle.read_strings.specs.Units.{is_digit, is_hexed, is_hex, is_separator, is_slashed, is_form, length_of, gain_of, hex_of, value_of, byte_of, chars_at, end_of, UnitAt};

use crate::look;
use rules::{Language, Quotes};

// Returns the byte at an offset, or 0 past the end.
pub fn byte_at(text: &[u8], at: usize) -> u8
    ensures { result ≡ get_or text.now at 0 }
{
    if at < text.len() {
        return text[at];
    }
    0
}

// Reports whether a byte is an upper-case hex digit.
fn is_digit(b: u8) -> bool
    ensures { result ≡ is_digit b }
{
    base::is_within(b'0', b'9', b) | base::is_within(b'A', b'F', b)
}

// Reports whether two bytes are the hex digits of a byte below 32 or of `<`.
fn is_hexed(a: u8, b: u8) -> bool
    ensures { result ≡ is_hexed a b }
{
    (base::is_within(b'0', b'1', a) & is_digit(b)) | ((a == b'3') & (b == b'C'))
}

// Reports whether the bytes after a backslash are those of a byte in hex: `xHH` in a script, and `HH` and a space in a style sheet, which has no `00`.
fn is_hex(language: Language, b: u8, c: u8, d: u8) -> bool
    ensures { result ≡ is_hex language b c d }
{
    match language {
        Language::Script => (b == b'x') & is_hexed(c, d),
        Language::Style => (d == b' ') & is_hexed(b, c) & ((b != b'0') | (c != b'0')),
    }
}

// Reports whether they are `u2028` or `u2029`, in a script.
fn is_separator(language: Language, b: u8, c: u8, d: u8, e: u8, f: u8) -> bool
    ensures { result ≡ is_separator language b c d e f }
{
    match language {
        Language::Script => {
            (b == b'u') & (c == b'2') & (d == b'0') & (e == b'2') & base::is_within(b'8', b'9', f)
        }
        Language::Style => false,
    }
}

// Reports whether they begin with a quote, or with a backslash that no quote follows: the look lets a quote after any backslash pass.
fn is_slashed(keys: &[u8; 2], b: u8, c: u8) -> bool
    ensures { result ≡ is_slashed keys.now b c }
{
    look::is_key(keys, b) | ((b == b'\\') & !look::is_key(keys, c))
}

// Reports whether they are the rest of a unit.
pub fn is_form(language: Language, keys: &[u8; 2], b: u8, c: u8, d: u8, e: u8, f: u8) -> bool
    ensures { result ≡ is_form language keys.now b c d e f }
{
    is_slashed(keys, b, c) | is_hex(language, b, c, d) | is_separator(language, b, c, d, e, f)
}

// Returns the five bytes after an offset, 0 for those past the end, since no escape has a NUL.
fn bytes_after(text: &[u8], at: usize) -> [u8; 5]
    requires { at < length text.now }
    ensures { result ≡ get_or text.now (at + 1) 0 ∷ get_or text.now (at + 2) 0 ∷ get_or text.now (at + 3) 0 ∷ get_or text.now (at + 4) 0 ∷ get_or text.now (at + 5) 0 ∷ [] }
{
    if text.len() - at < 6 {
        return [
            byte_at(text, at + 1),
            byte_at(text, at + 2),
            byte_at(text, at + 3),
            byte_at(text, at + 4),
            byte_at(text, at + 5),
        ];
    }
    [
        text[at + 1],
        text[at + 2],
        text[at + 3],
        text[at + 4],
        text[at + 5],
    ]
}

// Reports whether a unit is at the offset of a backslash, and after it no quote that is replaced.
pub fn is_unit(language: Language, quotes: Quotes, keys: &[u8; 2], text: &[u8], at: usize) -> bool
    requires { (keys.now ≡ keys_of quotes) × (at < length text.now) × (get_or text.now at 0 ≡ 92) }
    ensures { result ≡ true → UnitAt language quotes text.now at × Fresh quotes text.now (end_of text.now at) }
{
    let bytes = bytes_after(text, at);
    is_form(
        language, keys, bytes[0], bytes[1], bytes[2], bytes[3], bytes[4],
    )
}

// Returns the length of a unit by its second byte: the lowest three bits tell `\`, `'` and `"`, which have two, `u`, which has six, and `x` or a digit, which
// have four.
pub fn length_of(second: u8) -> usize
    ensures { (result ≡ length_of second) × (gain_of second < result) × (result ≤ 7) }
{
    ((0x2462_4244_u64 >> ((second % 8 * 4) as u32)) % 8) as usize
}

// Returns how many bytes fewer its character has.
pub fn gain_of(second: u8) -> usize
    ensures { result ≡ gain_of second }
{
    ((0x1331_3133_u64 >> ((second % 8 * 4) as u32)) % 4) as usize
}

// Returns the value of two hex digits of which the first is `0`, `1` or `3`.
fn hex_of(a: u8, b: u8) -> u8
    ensures { result ≡ hex_of a b }
{
    a % 4 * 16 + (b % 16 + b / 64 * 9)
}

// Returns the value of the digits of a unit, given the bytes after its backslash.
fn value_of(language: Language, b: u8, c: u8, d: u8) -> u8
    ensures { result ≡ value_of language b c d }
{
    match language {
        Language::Script => hex_of(c, d),
        Language::Style => hex_of(b, c),
    }
}

// Returns the byte that a unit stands for.
fn byte_of(language: Language, b: u8, c: u8, d: u8) -> u8
    ensures { result ≡ byte_of language b c d }
{
    let value = value_of(language, b, c, d);
    if length_of(b) == 2 { b } else { value }
}

// Writes the character of the unit at an offset to the start of `output`, leaves the bytes after it as they were, and returns its length.
pub fn put_char(
    language: Language,
    quotes: Quotes,
    text: &[u8],
    at: usize,
    output: &mut [u8],
) -> usize
    requires { UnitAt language quotes text.now at × (length (chars_at language text.now at) ≤ length output.old) }
    ensures { (result ≡ length (chars_at language text.now at)) × (output.new ≡ over (chars_at language text.now at) output.old) }
{
    let b = text[at + 1];
    if b == b'u' {
        return base::put(&[0xE2, 0x80, 0xA8 + text[at + 5] % 2], output);
    }
    if text.len() - at < 4 {
        return base::put(&[b], output);
    }
    base::put(&[byte_of(language, b, text[at + 2], text[at + 3])], output)
}
