// Numbers in browse: the digits up to the first other byte, the `;` that may follow them, and the character that they stand for.
ghost use Rattle.std.specs.Prelude.{◌⊎◌, ◌≡◌, ◌+◌, ◌≤◌, ◌<◌, length, drop, get_or};
ghost use Rattle.std.proofs.Math.Option.{some};
ghost use Rattle.rules.specs.Utf8.{utf8};
ghost use Rattle.rules.specs.References.{renumbering, stands_for, browse_char};
ghost use Rattle.rules.specs.Browsing.{end_at};
ghost use Rattle.rules.specs.declared.Kind.{Kind};
ghost use Rattle.browse_html.specs.Finding.{Finds, Counts, entity_at};

use crate::Single;

// Returns the number of the character that browse gives for a numeric reference. The two tests come first, since nearly every number ends there.
fn stands_for(number: u32) -> u32
    ensures { result ≡ stands_for renumbering number }
{
    if number < 0x80 {
        return number;
    }
    if 0x9F < number {
        return number;
    }
    match number {
        0x80 => 0x20AC,
        0x82 => 0x201A,
        0x83 => 0x0192,
        0x84 => 0x201E,
        0x85 => 0x2026,
        0x86 => 0x2020,
        0x87 => 0x2021,
        0x88 => 0x02C6,
        0x89 => 0x2030,
        0x8A => 0x0160,
        0x8B => 0x2039,
        0x8C => 0x0152,
        0x8E => 0x017D,
        0x91 => 0x2018,
        0x92 => 0x2019,
        0x93 => 0x201C,
        0x94 => 0x201D,
        0x95 => 0x2022,
        0x96 => 0x2013,
        0x97 => 0x2014,
        0x98 => 0x02DC,
        0x99 => 0x2122,
        0x9A => 0x0161,
        0x9B => 0x203A,
        0x9C => 0x0153,
        0x9E => 0x017E,
        0x9F => 0x0178,
        _ => number,
    }
}

// Returns the number of the character that a number stands for as a browser takes it: U+FFFD if it is 0 or no character.
fn browsed(number: u32) -> u32
    ensures { (some (utf8 result) ≡ browse_char number) × (result ≤ 0x10FFFF) }
{
    if number == 0 {
        return 0xFFFD;
    }
    if decode_html::digits::is_scalar(number) {
        return stands_for(number);
    }
    0xFFFD
}

// Returns the offset past the `;` at an offset if one stands there, else the offset.
fn past_end(text: &[u8], at: usize) -> usize
    requires { at ≤ length text.now }
    ensures { result ≡ at + length (end_at (drop at text.now)) }
{
    match text.get(at) {
        Some(b';') => at + 1,
        _ => at,
    }
}

// Reads the number whose digits begin at `from`, behind the `&` at `start` and the mark of its base.
fn find_digits(base: u32, text: &[u8], start: usize, from: usize) -> Option<Single>
    requires { (get_or text.now start 0 ≡ 38) × ((base ≡ 10) ⊎ (base ≡ 16)) × (start < from) × (from ≤ length text.now) × ((kind : Kind) → Counts kind base text.now start from) }
    ensures { (kind : Kind) → Finds kind text.now start (entity_at start result) }
{
    let run = decode_html::digits::read_run(base, &text[from..]);
    if run.length == 0 {
        return None;
    }
    let character = browsed(run.number);
    Some(Single {
        end: past_end(text, from + run.length),
        character,
    })
}

// Reads the number behind the `&#` at `start`: hex digits after `x` or `X`, else decimal digits. One call reads both, so that it is compiled in line.
pub fn find_number(text: &[u8], start: usize) -> Option<Single>
    requires { (start + 1 < length text.now) × (get_or text.now start 0 ≡ 38) × (get_or text.now (start + 1) 0 ≡ 35) }
    ensures { (kind : Kind) → Finds kind text.now start (entity_at start result) }
{
    let at = start + 2;
    let hex = decode_html::digits::is_hex_mark(*text.get(at)?);
    let (base, mark) = if hex { (16, 1) } else { (10, 0) };
    find_digits(base, text, start, at + mark)
}
