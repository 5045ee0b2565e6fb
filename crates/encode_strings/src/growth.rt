// How many places of a part are replaced, and how much longer it becomes.
// A part has at most 64 bytes, in each contract: chunks of that size leave no line separator whole, so that `cut` makes the parts.
ghost use Rattle.std.specs.Prelude.{true, cond, ◌≡◌, ◌+◌, ◌*◌, ◌≤◌, eqb, length};
ghost use Rattle.rules.specs.Contexts.{written_in};
ghost use Rattle.rules.specs.Encoding.{encode_step};
ghost use Rattle.rules.specs.Moves.{through, replaced};
ghost use Rattle.rules.specs.Operations.{encode_of};
ghost use Rattle.encode_strings.specs.Strings.{escaped_of, hexed_of, hex_growth, same_of, total, separators_in, Counted, separates as separates_in, places_by};

use crate::{escapes, rule};
use rules::{Notation, Quotes};

// How many bytes of a part are escaped, how many of these by their hex digits, and how often it has the byte that is counted beside.
#[derive(Clone, Copy)]
pub struct Tally {
    pub escaped: u8,
    pub hexed: u8,
    pub odd: u8,
}

// By how much a part grows, and how many of its places are replaced.
#[derive(Clone, Copy)]
pub struct Change {
    pub growth: usize,
    pub replaced: usize,
}

// Returns 1 where a test holds, else 0.
fn bit(holds: bool) -> u8
    ensures { (result ≡ cond holds 1 0) × (result ≤ 1) }
{
    u8::from(holds)
}

// Counts the bytes of a part that are escaped, those that are by their hex digits, and the byte `odd`. Short parts keep the counts in a byte, and the
// loop has no branch, so that it compiles to vector code.
fn weigh(single: u8, double: u8, odd: u8, part: &[u8]) -> Tally
    requires { length part.now ≤ 64 }
    ensures escaped_value { (result.escaped ≡ total (escaped_of single double) part.now) × (result.hexed ≡ total hexed_of part.now) × (result.odd ≡ total (same_of odd) part.now) }
    ensures escaped_in_bounds { (result.escaped ≤ length part.now) × (result.hexed ≤ length part.now) }
{
    let mut escaped: u8 = 0;
    let mut hexed: u8 = 0;
    let mut n: u8 = 0;
    for b in part {
        let hex = rule::is_hexed(*b);
        escaped += bit(rule::is_slashed(single, double, *b) | hex);
        hexed += bit(hex);
        n += base::when(odd, *b, 1);
    }
    Tally {
        escaped,
        hexed,
        odd: n,
    }
}

// Counts the line separators of a part.
fn separators(part: &[u8]) -> usize
    requires { length part.now ≤ 64 }
    ensures { (result ≡ separators_in part.now) × (result ≤ length part.now) }
{
    let mut n: usize = 0;
    for i in 0..part.len().saturating_sub(2) {
        if part[i] == rule::SEPARATOR_LEAD {
            if escapes::ends_separator(part[i + 1], part[i + 2]) {
                n += 1;
            }
        }
    }
    n
}

// Counts what is escaped in a part, and E2, with which line separators begin.
pub fn count(notation: Notation, quotes: Quotes, part: &[u8]) -> Tally
    requires { length part.now ≤ 64 }
    ensures { Counted notation quotes part.now result.escaped result.hexed result.odd }
{
    let single = rule::single_key(notation, quotes);
    let double = rule::double_key(notation, quotes);
    weigh(single, double, rule::SEPARATOR_LEAD, part)
}

// Reports whether a part that was counted is copied, since nothing of it is replaced.
pub fn is_copied(notation: Notation, quotes: Quotes, found: Tally, part: &[u8]) -> bool
    requires { (length part.now ≤ 64) × Counted notation quotes part.now found.escaped found.hexed found.odd }
    ensures { result ≡ eqb (replaced (through (encode_step (written_in notation quotes)) part.now)) 0 }
{
    if found.escaped != 0 {
        return false;
    }
    if found.odd == 0 {
        return true;
    }
    if rule::separates(notation) {
        return separators(part) == 0;
    }
    true
}

// Returns how many places of a part were replaced that was counted and became longer by `growth` bytes. But in a style sheet each line separator is
// longer by three bytes, so that what the escaped bytes do not explain tells how many there are.
pub fn places(notation: Notation, found: Tally, growth: usize) -> usize
    requires { (separates_in notation ≡ true → found.escaped + hex_growth notation found.hexed ≤ growth) × (growth ≤ 65536) }
    ensures { result ≡ places_by notation found.escaped found.hexed growth }
{
    let escaped = found.escaped as usize;
    if rule::separates(notation) {
        return escaped + (growth - (escaped + hex_growth(notation, found.hexed))) / 3;
    }
    escaped
}

// Returns by how much bytes that are written in hex grow more than those with a backslash: `\x3C` and `\3C ` have four bytes, `\u003C` has six.
fn hex_growth(notation: Notation, hexed: u8) -> usize
    ensures { (result ≡ hex_growth notation hexed) × (result ≤ 1020) }
{
    let n = hexed as usize;
    match notation {
        Notation::Script => 2 * n,
        Notation::Style => 2 * n,
        Notation::Json => 4 * n,
    }
}

// Adds up what was counted: a backslash is one byte more, hex digits are more by what `hex_growth` says, and `\u2028` is three bytes more than the
// separator.
fn sum(notation: Notation, found: Tally, separators: usize) -> Change
    requires { separators ≤ 64 }
    ensures { (result.growth ≡ found.escaped + hex_growth notation found.hexed + 3 * separators) × (result.replaced ≡ found.escaped + separators) }
{
    let escaped = found.escaped as usize;
    Change {
        growth: escaped + hex_growth(notation, found.hexed) + 3 * separators,
        replaced: escaped + separators,
    }
}

// Returns by how much a part grows and how many of its places are replaced: in a style sheet NUL grows by two only, elsewhere line
// separators are replaced too.
pub fn gained(notation: Notation, quotes: Quotes, part: &[u8]) -> Change
    requires { length part.now ≤ 64 }
    ensures { (length part.now + result.growth ≡ length (encode_of (written_in notation quotes) part.now)) × (result.replaced ≡ replaced (through (encode_step (written_in notation quotes)) part.now)) × (result.replaced ≤ 2 * length part.now) }
{
    let single = rule::single_key(notation, quotes);
    let double = rule::double_key(notation, quotes);
    if rule::separates(notation) {
        let found = weigh(single, double, rule::SEPARATOR_LEAD, part);
        if found.odd == 0 {
            return sum(notation, found, 0);
        }
        return sum(notation, found, separators(part));
    }
    let found = weigh(single, double, 0, part);
    let all = sum(notation, found, 0);
    Change {
        growth: all.growth - found.odd as usize,
        replaced: all.replaced,
    }
}
