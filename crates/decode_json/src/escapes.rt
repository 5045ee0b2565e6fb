// Reads an escape at a backslash: two characters, `\u` and four hex digits of either letter case, or two such of a surrogate pair.
ghost use Rattle.std.specs.Prelude.{cond, [], ◌∷◌, ◌≡◌, ◌≤◌, ◌<◌, ℕ, IfSome, is_some, eqb, ltb, length, drop, get_or};
ghost use Rattle.rules.specs.Bytes.{inside};
ghost use Rattle.rules.specs.Moves.{why};
ghost use Rattle.rules.specs.References.{hex_digit_at, number};
ghost use Rattle.rules.specs.Json.{highs, lows, unicode_at, at_high, at_unicode, json_step};
ghost use Rattle.base.specs.Digits.{found_as};
ghost use Rattle.decode_json.specs.Escapes.{short_of, Tells};

use rules::Escape;

// Returns the bytes that make an escape with a backslash before them as the bits of a word: `"` and `/` if `b` is below 64, else `\`, `b`, `f`, `n`, `r`
// and `t`, of each its number less 64.
fn short_bits(b: u8) -> u64
    ensures { result ≡ cond (ltb b 64) 0x800400000000 0x14404410000000 }
{
    if b < 64 {
        0x8004_0000_0000
    } else {
        0x14_4044_1000_0000
    }
}

// Reports whether a backslash and this byte are an escape. One test of a bit settles all eight, where a `match` compiles to branches that are often
// guessed wrong.
fn is_short(b: u8) -> bool
    ensures { result ≡ is_some (short_of b) }
{
    (b < 128) & ((short_bits(b) >> ((b % 64) as u32)) % 2 == 1)
}

// Returns the character that a backslash and this byte stand for: a mark stands for itself, a letter for a control character, whose number is in four
// bits of a word.
fn short(b: u8) -> Option<u8>
    ensures { result ≡ short_of b }
{
    if !is_short(b) {
        return None;
    }
    if b < b'b' {
        return Some(b);
    }
    Some(((0x9D0_A000_C080_u64 >> ((b % 32 * 2) as u32)) % 16) as u8)
}

// Returns the value of a hex digit of either letter case.
fn digit(byte: u8) -> Option<u32>
    ensures value { result ≡ found_as (hex_digit_at byte) }
    ensures small { IfSome result (λ n. n < 16) }
{
    base::digit_value(byte).map(u32::from)
}

// Returns the number of four hex digits.
fn four(a: u8, b: u8, c: u8, d: u8) -> Option<u32>
    ensures value { result ≡ found_as (number hex_digit_at 16 (a ∷ b ∷ c ∷ d ∷ [])) }
    ensures small { IfSome result (λ n. n < 0x10000) }
{
    let w = digit(a)?;
    let x = digit(b)?;
    let y = digit(c)?;
    let z = digit(d)?;
    Some(((w * 16 + x) * 16 + y) * 16 + z)
}

// Returns the number of `\u` and four hex digits at the start of `rest`.
fn unicode(rest: &[u8]) -> Option<u32>
    ensures value { result ≡ found_as (unicode_at rest.now) }
    ensures long { IfSome result (λ n. (n < 0x10000) × (6 ≤ length rest.now)) }
{
    match rest {
        [b'\\', b'u', a, b, c, d, ..] => four(*a, *b, *c, *d),
        _ => None,
    }
}

// Reports whether a number is the first half of a surrogate pair.
fn is_high(n: u32) -> bool
    ensures { result ≡ inside highs n }
{
    matches!(n, 0xD800..=0xDBFF)
}

// Reports whether a number is the second half of a surrogate pair.
fn is_low(n: u32) -> bool
    ensures { result ≡ inside lows n }
{
    matches!(n, 0xDC00..=0xDFFF)
}

// Reads a pair whose first half, of the number `high`, starts `rest`.
fn read_pair(high: u32, rest: &[u8]) -> Option<Escape>
    requires { (6 ≤ length rest.now) × (0xD800 ≤ high) × (high ≤ 0xDBFF) }
    ensures { Tells (at_high high (unicode_at (drop 6 rest.now)) rest.now) rest.now result }
{
    let low = unicode(&rest[6..])?;
    if !is_low(low) {
        return None;
    }
    Some(Escape {
        taken: 12,
        character: 0x10000 + (high - 0xD800) * 0x400 + (low - 0xDC00),
    })
}

// Reads the escape of the number `n` that starts `rest`: its character, or that of a pair.
fn read_number(n: u32, rest: &[u8]) -> Option<Escape>
    requires { (n < 0x10000) × (6 ≤ length rest.now) }
    ensures { Tells (at_unicode n rest.now) rest.now result }
{
    if is_high(n) {
        return read_pair(n, rest);
    }
    if is_low(n) {
        return None;
    }
    Some(Escape {
        taken: 6,
        character: n,
    })
}

// Reads the escape at the backslash that starts `rest`.
#[inline(always)]
pub fn read_escape(rest: &[u8]) -> Option<Escape>
    requires { (0 < length rest.now) × (get_or rest.now 0 0 ≡ 0x5C) }
    ensures { (p : ℕ) → Tells (json_step p rest.now) rest.now result }
{
    if let Some(n) = unicode(rest) {
        return read_number(n, rest);
    }
    let b = *rest.get(1)?;
    let character = short(b)?;
    Some(Escape {
        taken: 2,
        character: character as u32,
    })
}

// Reports whether half a surrogate pair stands alone at the start of `rest`.
pub fn begins_lone(rest: &[u8]) -> bool
    ensures { result ≡ eqb (why (json_step 0 rest.now)) 10 }
{
    let Some(n) = unicode(rest) else {
        return false;
    };
    if !is_high(n) {
        return is_low(n);
    }
    let Some(low) = unicode(&rest[6..]) else {
        return true;
    };
    !is_low(low)
}
