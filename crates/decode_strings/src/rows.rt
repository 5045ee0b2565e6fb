// The escapes that a script or style string is written with.
ghost use Rattle.std.specs.Prelude.{◌≡◌, ◌<◌, IfSome};
ghost use Rattle.rules.specs.Bytes.{one_of};
ghost use Rattle.decode_strings.specs.Finds.{Finds, one_byte};
ghost use Rattle.decode_strings.specs.Strings.{slashed_bytes, slashed_rows, hex_escape, is_hexed, separators, hex_rows, unslashed_rows};

use crate::digits;
use rules::{Escape, Language, Quotes};

// Reports whether the string writes the byte with a backslash before it. The match on constants
// compiles to one test of a set, without a branch for each.
pub fn is_slashed(quotes: Quotes, b: u8) -> bool
    ensures { result ≡ one_of (slashed_bytes quotes) b }
{
    match quotes {
        Quotes::Single => matches!(b, b'\\' | b'\''),
        Quotes::Double => matches!(b, b'\\' | b'"'),
        Quotes::Both => matches!(b, b'\\' | b'\'' | b'"'),
    }
}

// Returns the byte after a backslash at the start of `rest`, if the string writes it so.
pub fn slashed(quotes: Quotes, rest: &[u8]) -> Option<u8>
    ensures finds { Finds (slashed_rows quotes) rest.now (one_byte result) }
    ensures ascii { IfSome result (λ b. b < 128) }
{
    match rest {
        [b'\\', b, ..] if is_slashed(quotes, *b) => Some(*b),
        _ => None,
    }
}

// Returns the value of the hex escape at the start of `rest`, `\xHH` in a script and `\HH` with a
// space in a style sheet.
#[tactic(auto, unfolding(crate::specs::Hex::hex_between))]
fn hex_escape(language: Language, rest: &[u8]) -> Option<u8>
    ensures { result ≡ hex_escape language rest.now }
{
    match language {
        Language::Script => match rest {
            [b'\\', b'x', high, low, ..] => digits::pair(*high, *low),
            _ => None,
        },
        Language::Style => match rest {
            [b'\\', high, low, b' ', ..] => digits::pair(*high, *low),
            _ => None,
        },
    }
}

// Reports whether the string writes the byte of this value as a hex escape.
pub fn is_hexed(language: Language, v: u32) -> bool
    ensures { result ≡ is_hexed language v }
{
    match language {
        Language::Script => matches!(v, 0..=0x1F | 0x3C),
        Language::Style => matches!(v, 1..=0x1F | 0x3C),
    }
}

// Reads the hex escape at the start of `rest`, if the string writes its byte so. In line where it is called, so that what was read stays in registers.
#[inline(always)]
pub fn hex_row(language: Language, rest: &[u8]) -> Option<Escape>
    ensures { Finds (hex_rows language) rest.now result }
{
    let b = hex_escape(language, rest)?;
    if !is_hexed(language, b as u32) {
        return None;
    }
    Some(Escape {
        taken: 4,
        character: b as u32,
    })
}

// Reads `\u2028` or `\u2029` at the start of `rest`, which script strings have.
pub fn separator(language: Language, rest: &[u8]) -> Option<Escape>
    ensures { Finds (separators language) rest.now result }
{
    let Language::Script = language else {
        return None;
    };
    if base::prefix::starts(b"\\u2028", rest) {
        return Some(Escape {
            taken: 6,
            character: 0x2028,
        });
    }
    if base::prefix::starts(b"\\u2029", rest) {
        return Some(Escape {
            taken: 6,
            character: 0x2029,
        });
    }
    None
}

// Reads the row at the start of `rest` that the string has besides those with a backslash before
// the byte.
#[inline(always)]
pub fn unslashed(language: Language, rest: &[u8]) -> Option<Escape>
    ensures { Finds (unslashed_rows language) rest.now result }
{
    if let Some(escape) = hex_row(language, rest) {
        return Some(escape);
    }
    separator(language, rest)
}
