// Numeric references: the number of the digits, kept under a ceiling so that it cannot overflow, and the character that it stands for.
// The base is 10 or 16 in each contract: the digits are multiplied by it, and an enum would be turned into that number at each digit.
ghost use Rattle.std.specs.Prelude.{◌&&◌, ◌||◌, ◌⊎◌, ◌≡◌, ◌<◌, [], ◌∷◌, MatchOption, leb, eqb};
ghost use Rattle.std.proofs.Math.Option.{none, some};
ghost use Rattle.rules.specs.Bytes.{one_of};
ghost use Rattle.rules.specs.References.{number, number_of, scalar, decode_char, meaning, why_digits, why};
ghost use Rattle.rules.specs.declared.Reason.TheVariants.{NotAllowed};
ghost use Rattle.decode_html.specs.Digits.{digit_by, ceiling_of, Runs, Numbers, Means};

use rules::{DecodedEntityValue, Reason};

// The number that stands for every number above the last character, 10FFFF.
const CEILING: u32 = 0x110000;

// Returns the value of a digit in a base.
pub fn digit(base: u32, byte: u8) -> Option<u32>
    requires { (base ≡ 10) ⊎ (base ≡ 16) }
    ensures { MatchOption result (digit_by base byte ≡ none) (λ value. (digit_by base byte ≡ some value) × (value < base)) }
{
    match base::digit_value(byte) {
        Some(value) if u32::from(value) < base => Some(u32::from(value)),
        _ => None,
    }
}

// Returns a number, or the ceiling if it is above. By a test, which is guessed right, and not by `min`, for which each digit would wait.
pub fn ceiling(number: u32) -> u32
    ensures { result ≡ ceiling_of number }
{
    if number <= 0x10FFFF {
        return number;
    }
    CEILING
}

// The digits at the head of some bytes: their number, which stays at the ceiling once it is above the last character, and how many they are.
#[derive(Clone, Copy)]
pub struct Run {
    pub number: u32,
    pub length: usize,
}

// Reads the digits of a base up to the first other byte. Leading zeros are free, and a number of any length is read to its end.
pub fn read_run(base: u32, bytes: &[u8]) -> Run
    requires { (base ≡ 10) ⊎ (base ≡ 16) }
    ensures { Runs base bytes.now result.number result.length }
{
    let mut number: u32 = 0;
    for (i, byte) in bytes.iter().enumerate() {
        let Some(value) = digit(base, *byte) else {
            return Run { number, length: i };
        };
        number = ceiling(number * base + value);
    }
    Run {
        number,
        length: bytes.len(),
    }
}

// Reads digits in a base. A number of any length is read to its end, so that a byte that is no digit is found before the number is judged.
fn read_digits(base: u32, digits: &[u8]) -> Result<u32, Reason>
    requires { (base ≡ 10) ⊎ (base ≡ 16) }
    ensures { Numbers result (number (digit_by base) base digits.now) (why_digits (digit_by base) base digits.now) }
{
    if digits.len() == 0 {
        return Err(Reason::Empty);
    }
    let run = read_run(base, digits);
    if run.length < digits.len() {
        return Err(Reason::NoDigit);
    }
    Ok(run.number)
}

// Reports whether a number is that of a character: no surrogate, and at most 10FFFF.
pub fn is_scalar(number: u32) -> bool
    ensures { result ≡ scalar number }
{
    matches!(number, 0..=0xD7FF | 0xE000..=0x10FFFF)
}

// Reports whether decode allows a number: of those below 32 only tab, line feed, form feed and carriage return.
fn is_decoded(number: u32) -> bool
    ensures { result ≡ (scalar number && (leb 32 number || one_of (9 ∷ 10 ∷ 12 ∷ 13 ∷ []) number)) }
{
    if 32 <= number {
        return is_scalar(number);
    }
    matches!(number, 9 | 10 | 12 | 13)
}

// Returns the character of a number that decode allows.
fn decoded(number: u32) -> Result<DecodedEntityValue, Reason>
    ensures { Means result (decode_char number) NotAllowed }
{
    if is_decoded(number) {
        return Ok(DecodedEntityValue::Character(number));
    }
    Err(Reason::NotAllowed)
}

// Reports whether hex digits follow: the byte after `#` is `x` or `X`.
pub fn is_hex_mark(b: u8) -> bool
    ensures { result ≡ (eqb b 120 || eqb b 88) }
{
    matches!(b, b'x' | b'X')
}

// Reads the number of a body from after its `#` on: decimal digits, or hex digits after `x` or `X`.
fn read_number(body: &[u8]) -> Result<u32, Reason>
    ensures { Numbers result (number_of (35 ∷ body.now)) (why (35 ∷ body.now)) }
{
    if body.len() == 0 {
        return Err(Reason::Empty);
    }
    if is_hex_mark(body[0]) {
        return read_digits(16, &body[1..]);
    }
    read_digits(10, body)
}

// Returns what a body stands for that begins with `#`, or why it stands for nothing; `body` is what follows.
pub fn decode_number(body: &[u8]) -> Result<DecodedEntityValue, Reason>
    ensures { Means result (meaning decode_char (35 ∷ body.now)) (why (35 ∷ body.now)) }
{
    decoded(read_number(body)?)
}
