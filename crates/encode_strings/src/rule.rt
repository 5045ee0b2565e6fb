// Which bytes a string escapes, and how: the parts of the rule that counting (growth.rt) and writing (escapes.rt) share.
ghost use Rattle.std.specs.Prelude.{◌≡◌};
ghost use Rattle.encode_strings.specs.Strings.{quotes_in, single_of, double_of, single_key, double_key, separates as separates_in, is_slashed, is_hexed, hex_by};

use rules::{Notation, Quotes, Replacement};

// The first byte of U+2028 and U+2029, the line separators, which script strings escape.
pub const SEPARATOR_LEAD: u8 = 0xE2;

// Returns the quotes that a string escapes: in JSON the double one.
fn quotes_in(notation: Notation, quotes: Quotes) -> Quotes
    ensures { result ≡ quotes_in notation quotes }
{
    match notation {
        Notation::Script => quotes,
        Notation::Style => quotes,
        Notation::Json => Quotes::Double,
    }
}

// Reports whether a string escapes the line separators: not in a style sheet.
pub fn separates(notation: Notation) -> bool
    ensures { result ≡ separates_in notation }
{
    match notation {
        Notation::Script => true,
        Notation::Style => false,
        Notation::Json => true,
    }
}

// Returns the single quote if it is among the quotes, else the backslash, which every string escapes.
fn single_of(quotes: Quotes) -> u8
    ensures { result ≡ single_of quotes }
{
    match quotes {
        Quotes::Single => b'\'',
        Quotes::Double => b'\\',
        Quotes::Both => b'\'',
    }
}

// Returns the double quote if it is among the quotes, else the backslash.
fn double_of(quotes: Quotes) -> u8
    ensures { result ≡ double_of quotes }
{
    match quotes {
        Quotes::Single => b'\\',
        Quotes::Double => b'"',
        Quotes::Both => b'"',
    }
}

// Returns the single quote if the string escapes it, else the backslash.
pub fn single_key(notation: Notation, quotes: Quotes) -> u8
    ensures { result ≡ single_key notation quotes }
{
    single_of(quotes_in(notation, quotes))
}

// Returns the double quote if the string escapes it, else the backslash.
pub fn double_key(notation: Notation, quotes: Quotes) -> u8
    ensures { result ≡ double_key notation quotes }
{
    double_of(quotes_in(notation, quotes))
}

// Reports whether the byte is escaped by a backslash before it: the backslash itself, and the quotes of `single_key` and `double_key`.
pub fn is_slashed(single: u8, double: u8, b: u8) -> bool
    ensures { result ≡ is_slashed single double b }
{
    (b == b'\\') | (b == single) | (b == double)
}

// Reports whether the byte is escaped by its hex digits: bytes 0 to 31 and `<`.
pub fn is_hexed(b: u8) -> bool
    ensures { result ≡ is_hexed b }
{
    (b < b' ') | (b == b'<')
}

// Returns how a byte of `is_hexed` is written: in hex, but for NUL in a style string, which becomes U+FFFD.
pub fn hex_by(notation: Notation, b: u8) -> Replacement
    ensures { result ≡ hex_by notation b }
{
    match notation {
        Notation::Script => Replacement::Hex,
        Notation::Style => if b == 0 {
            Replacement::Substitute
        } else {
            Replacement::Hex
        },
        Notation::Json => Replacement::Hex,
    }
}
