// Reads a unit, the escaped form of a replaced character, at an offset of a text.
ghost use Rattle.std.specs.Prelude.{Option, Some, None, IfSome, cond, map, ◌≡◌, ◌≤◌, ◌<◌, length, drop};
ghost use Rattle.rules.specs.Bytes.{ascii, stands};
ghost use Rattle.rules.specs.Tables.{reference, others, json_hex, html_rows, rows};
ghost use Rattle.rules.specs.declared.Html.TheVariants.{Unquoted};
ghost use Rattle.rules.specs.declared.Context.TheVariants.{InHtml, InJson};
ghost use Rattle.rules.specs.Contexts.{string_of};
ghost use Rattle.decode_strings.specs.Finds.{Finds};
ghost use Rattle.rules.specs.Answers.{escape_for};
ghost use Rattle.rules.specs.declared.Language.TheVariants.{Script};
ghost use Rattle.decode_strings.specs.Hex.{hex_between};
ghost use Rattle.decode_strings.specs.Strings.{hexed_bytes};
ghost use Rattle.reader.specs.Replaced.{in_set, Leads};
ghost use Rattle.reader.specs.Units.{Ruleless, is_other, mark_of};

use crate::replaced::{self, Special};
use decode_strings::{digits, rows};
use rules::{Context, Escape, Html, Language, Quotes};

// Reports whether `unquoted` writes the byte as `&#xHH;`: it is ASCII, no letter or digit, and has
// no named reference.
fn is_other(b: u8) -> bool
    ensures { result ≡ is_other b }
{
    b < 128 && !base::is_letter_or_digit(b) && !matches!(b, b'&' | b'<' | b'>' | b'"')
}

// Returns the value of the two digits of `&#xHH;` at the start of `rest`.
#[tactic(auto, unfolding(decode_strings::specs::Hex::hex_between))]
fn number_of(rest: &[u8]) -> Option<u8>
    ensures { result ≡ hex_between (ascii "&#x") (ascii ";") rest.now }
{
    match rest {
        [b'&', b'#', b'x', high, low, b';', ..] => digits::pair(*high, *low),
        _ => None,
    }
}

// Returns the value of the two digits of `\u00HH` at the start of `rest`.
#[tactic(auto, unfolding(decode_strings::specs::Hex::hex_between))]
fn json_number_of(rest: &[u8]) -> Option<u8>
    ensures { result ≡ hex_between (ascii "\\u00") (ascii "") rest.now }
{
    match rest {
        [b'\\', b'u', b'0', b'0', high, low, ..] => digits::pair(*high, *low),
        _ => None,
    }
}

// Reads the unit `value` of a character at the start of `rest`.
fn named(value: &[u8], character: u8, rest: &[u8]) -> Option<Escape>
    ensures { result ≡ cond (stands value.now rest.now) (escape_for (length value.now) character) None }
{
    if base::prefix::starts(value, rest) {
        return Some(Escape {
            taken: value.len(),
            character: character as u32,
        });
    }
    None
}

// Reads `&#xHH;` at the start of `rest`, for a byte that `unquoted` writes so.
fn numbered(rest: &[u8]) -> Option<Escape>
    ensures finds { Finds (map reference others) rest.now result }
    ensures ascii { IfSome result (λ e. e.character < 128) }
{
    let b = number_of(rest)?;
    if !is_other(b) {
        return None;
    }
    Some(Escape {
        taken: 6,
        character: b as u32,
    })
}

// Reads the unit of `unquoted` at the start of `rest`, which has units for all HTML contexts. The
// second byte tells which it can be.
fn reference(rest: &[u8]) -> Option<Escape>
    ensures finds { Finds (html_rows Unquoted) rest.now result }
    ensures ascii { IfSome result (λ e. e.character < 128) }
{
    if rest.len() < 2 {
        return None;
    }
    match rest[1] {
        b'a' => named(b"&amp;", b'&', rest),
        b'l' => named(b"&lt;", b'<', rest),
        b'g' => named(b"&gt;", b'>', rest),
        b'q' => named(b"&quot;", b'"', rest),
        b'#' => numbered(rest),
        _ => None,
    }
}

// Reads the unit of an HTML context at offset `at`: that of `unquoted`, if its character is in the
// context's set.
fn html_unit(h: Html, set: &[u64; 4], text: &[u8], at: usize) -> Option<Escape>
    requires { Leads (InHtml h) (in_set set.now) × (at ≤ length text.now) }
    ensures { Finds (html_rows h) (drop at text.now) result }
{
    let unit = reference(&text[at..])?;
    if !replaced::is_in(set, unit.character as u8) {
        return None;
    }
    Some(unit)
}

// Reads the unit of a script or style string at the start of `rest`. In line in the loops that read units, where what a call gives would go through memory.
#[inline(always)]
fn row_at(language: Language, quotes: Quotes, rest: &[u8]) -> Option<Escape>
    ensures { Finds (rows (string_of language quotes)) rest.now result }
{
    if let Some(b) = rows::slashed(quotes, rest) {
        return Some(Escape {
            taken: 2,
            character: b as u32,
        });
    }
    rows::unslashed(language, rest)
}

// Reads the unit of a JSON string at the start of `rest` that is two hex digits of a byte which the string writes so.
fn json_hex(rest: &[u8]) -> Option<Escape>
    ensures { Finds (map json_hex (hexed_bytes Script)) rest.now result }
{
    let b = json_number_of(rest)?;
    if !rows::is_hexed(Language::Script, b as u32) {
        return None;
    }
    Some(Escape {
        taken: 6,
        character: b as u32,
    })
}

// Reads the unit of a JSON string at the start of `rest`, in line as `row_at` is.
#[inline(always)]
fn json_row(rest: &[u8]) -> Option<Escape>
    ensures { Finds (rows InJson) rest.now result }
{
    if let Some(b) = rows::slashed(Quotes::Double, rest) {
        return Some(Escape {
            taken: 2,
            character: b as u32,
        });
    }
    if let Some(unit) = json_hex(rest) {
        return Some(unit);
    }
    rows::separator(Language::Script, rest)
}

// Reads the unit of the context at offset `at`; `set` is that of the context. It takes an offset and not a slice, which would pass through memory in each turn of a loop. It is never
// asked for ascii_quoted, which has a reader of its own.
#[inline(always)]
pub fn read_unit(c: Context, set: &[u64; 4], text: &[u8], at: usize) -> Option<Escape>
    requires { Leads c (in_set set.now) × (at ≤ length text.now) × Ruleless c }
    ensures { Finds (rows c) (drop at text.now) result }
{
    match c {
        Context::InHtml(h) => html_unit(h, set, text, at),
        Context::InScript(quotes) => row_at(Language::Script, quotes, &text[at..]),
        Context::InStyle(quotes) => row_at(Language::Style, quotes, &text[at..]),
        Context::InJson => json_row(&text[at..]),
        Context::InAscii => None,
    }
}

// Returns the byte that every unit of the context starts with.
pub fn mark_of(c: Context) -> u8
    ensures { result ≡ mark_of c }
{
    match c {
        Context::InHtml(_) => b'&',
        Context::InScript(_) => b'\\',
        Context::InStyle(_) => b'\\',
        Context::InJson => b'\\',
        Context::InAscii => b'&',
    }
}
