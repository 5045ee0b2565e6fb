// Finds what escapes the start of a text in a string, and writes a text byte by byte.
// That something is left stands in each contract: each takes what is left of a text, and looks at its first byte.
ghost use Rattle.std.specs.Prelude.{true, cond, ◌≡◌, ℕ, ◌≤◌, ◌<◌, eqb, length, get_or};
ghost use Rattle.rules.specs.Bytes.{over};
ghost use Rattle.rules.specs.Contexts.{written_in};
ghost use Rattle.rules.specs.Moves.{gives};
ghost use Rattle.rules.specs.Encoding.{encode_step};
ghost use Rattle.rules.specs.Operations.{encode_of};
ghost use Rattle.rules.specs.Answers.{replacement_move, replaced_move};
ghost use Rattle.rules.specs.declared.Quotes.{Quotes};
ghost use Rattle.rules.specs.declared.Notation.{Notation};
ghost use Rattle.rules.specs.declared.Replacement.TheVariants.{Slashed};
ghost use Rattle.encode_strings.specs.Strings.{separates, taken_by, Held, HeldAt, hex_in, ends_of};

use crate::rule;
use rules::{Notation, Quotes, Replacement};

// Reports whether the two bytes after E2 make it a line separator, U+2028 or U+2029.
#[tactic(auto, unfolding(crate::specs::Strings::ends_of))]
pub fn ends_separator(b: u8, c: u8) -> bool
    ensures { result ≡ ends_of b c }
{
    b == 0x80 && matches!(c, 0xA8 | 0xA9)
}

// Finds U+2028 or U+2029 at the start of `rest`, which begins with E2.
fn separator_at(rest: &[u8]) -> Option<Replacement>
    requires { (0 < length rest.now) × (get_or rest.now 0 0 ≡ 0xE2) }
    ensures { ((notation : Notation) → separates notation ≡ true → (quotes : Quotes) (p : ℕ) → replaced_move notation rest.now result ≡ encode_step (written_in notation quotes) p rest.now) × HeldAt result rest.now }
{
    match rest {
        [_, b, c, ..] if ends_separator(*b, *c) => Some(Replacement::Separator),
        _ => None,
    }
}

// Finds what replaces the start of `rest`, which begins with E2: style sheets do not escape line separators.
pub fn separator(notation: Notation, rest: &[u8]) -> Option<Replacement>
    requires { (0 < length rest.now) × (get_or rest.now 0 0 ≡ 0xE2) }
    ensures { ((quotes : Quotes) (p : ℕ) → replaced_move notation rest.now result ≡ encode_step (written_in notation quotes) p rest.now) × HeldAt result rest.now }
{
    if rule::separates(notation) {
        return separator_at(rest);
    }
    None
}

// Returns what replaces a quote, which is escaped if it is the key.
fn quoted(key: u8, b: u8) -> Option<Replacement>
    ensures { result ≡ cond (eqb b key) (Some Slashed) None }
{
    if b == key {
        Some(Replacement::Slashed)
    } else {
        None
    }
}

// Finds what replaces the start of `rest`, by its first byte. No string escapes the bytes from `]` to 7F, nor the space and `!`: in most of a text that
// settles it.
fn escape(notation: Notation, quotes: Quotes, rest: &[u8]) -> Option<Replacement>
    requires { 0 < length rest.now }
    ensures { ((p : ℕ) → replaced_move notation rest.now result ≡ encode_step (written_in notation quotes) p rest.now) × HeldAt result rest.now }
{
    let b = rest[0];
    if base::is_within(b']', 0x7F, b) {
        return None;
    }
    if b <= b'!' {
        if b < b' ' {
            return Some(rule::hex_by(notation, b));
        }
        return None;
    }
    match b {
        b'"' => quoted(rule::double_key(notation, quotes), b),
        b'\'' => quoted(rule::single_key(notation, quotes), b),
        b'<' => Some(Replacement::Hex),
        b'\\' => Some(Replacement::Slashed),
        rule::SEPARATOR_LEAD => separator(notation, rest),
        _ => None,
    }
}

// Returns how many bytes of the text the replacement takes.
pub fn taken(found: Replacement) -> usize
    ensures { (result ≡ taken_by found) × (1 ≤ result) }
{
    match found {
        Replacement::Slashed => 1,
        Replacement::Hex => 1,
        Replacement::Separator => 3,
        Replacement::Substitute => 1,
    }
}

// Writes a byte as an escape with its two hex digits.
fn put_hex(notation: Notation, b: u8, output: &mut [u8]) -> usize
    requires { length (hex_in notation b) ≤ length output.old }
    ensures { (result ≡ length (hex_in notation b)) × (output.new ≡ over (hex_in notation b) output.old) }
{
    let high = base::hex_digit(b / 16);
    let low = base::hex_digit(b % 16);
    match notation {
        Notation::Script => base::put(&[b'\\', b'x', high, low], output),
        Notation::Style => base::put(&[b'\\', high, low, b' '], output),
        Notation::Json => base::put(&[b'\\', b'u', b'0', b'0', high, low], output),
    }
}

// Writes what replaces the start of `rest`. The last byte of U+2028 and U+2029, A8 or A9, is 70 above its digit.
pub fn put_found(notation: Notation, found: Replacement, rest: &[u8], output: &mut [u8]) -> usize
    requires { Held found rest.now × (length (gives (replacement_move notation rest.now found)) ≤ length output.old) }
    ensures { (result ≡ length (gives (replacement_move notation rest.now found))) × (output.new ≡ over (gives (replacement_move notation rest.now found)) output.old) }
{
    let b = rest[0];
    match found {
        Replacement::Slashed => base::put(&[b'\\', b], output),
        Replacement::Hex => put_hex(notation, b, output),
        Replacement::Separator => base::put(
            &[b'\\', b'u', b'2', b'0', b'2', rest[2] - 0x70],
            output,
        ),
        Replacement::Substitute => base::put(&[0xEF, 0xBF, 0xBD], output),
    }
}

// Writes the escaped text to the start of `output`, byte by byte; where nothing is found the byte is copied on.
pub fn write_bytes(notation: Notation, quotes: Quotes, text: &[u8], output: &mut [u8]) -> usize
    requires { length (encode_of (written_in notation quotes) text.now) ≤ length output.old }
    ensures { (result ≡ length (encode_of (written_in notation quotes) text.now)) × (output.new ≡ over (encode_of (written_in notation quotes) text.now) output.old) }
{
    let mut at: usize = 0;
    let mut i: usize = 0;
    // A cursor: each turn moves by the length of what it read.
    while i < text.len() {
        let Some(found) = escape(notation, quotes, &text[i..]) else {
            at += base::put(&[text[i]], &mut output[at..]);
            i += 1;
            continue;
        };
        at += put_found(notation, found, &text[i..], &mut output[at..]);
        i += taken(found);
    }
    at
}
