// Writes what a clear text reads back as: what stands between two units is copied at once, and a unit gives way to its character.
// The kept places stand beside their count: the list is an array on the caller's stack, of which the rest is not set.
ghost use Rattle.std.specs.Prelude.{◌≡◌, ◌≤◌, ◌<◌, length, get_or};
ghost use Rattle.rules.specs.Contexts.{string_of};
ghost use Rattle.rules.specs.Moves.{through, place};
ghost use Rattle.rules.specs.Operations.{read_of};
ghost use Rattle.base.specs.Places.{Nearest};
ghost use Rattle.find_ascii.specs.Words.{Ascii};
ghost use Rattle.marks.specs.Marks.{Marked};
ghost use Rattle.reader.specs.Units.{byte_step};
ghost use Rattle.read_strings.specs.Clear.{Clear};
ghost use Rattle.read_strings.specs.Units.{length_of};

use crate::units;
use rules::{Language, Quotes};

// Returns the offset of the next backslash from `from` on, or the text's length: that which is kept, or it is searched as in measuring. A search that both
// call would not be compiled in line.
fn next_kept(text: &[u8], places: &[u16], kept: usize, k: usize, from: usize) -> usize
    requires { (from ≤ length text.now) × Ascii text.now × (kept ≤ length places.now) × (k < kept → Nearest text.now from 92 (get_or places.now k 0)) }
    ensures { Nearest text.now from 92 result × (k < kept → result ≡ get_or places.now k 0) }
{
    if k < kept {
        return usize::from(places[k]);
    }
    if units::byte_at(text, from) == b'\\' {
        return from;
    }
    find_ascii::find(text, from, b'\\')
}

// Writes the result of a text that is read as a whole, given the offsets of its first `kept` units, to an output that is as long as the result.
pub fn write(
    language: Language,
    quotes: Quotes,
    text: &[u8],
    places: &[u16],
    kept: usize,
    output: &mut [u8],
)
    requires clear { Clear language quotes text.now × (place (through (byte_step (string_of language quotes)) text.now) ≡ length text.now) }
    requires kept_in_bounds { (kept ≤ length places.now) × Marked length_of 92 text.now places.now kept × (length (read_of (string_of language quotes) text.now) ≡ length output.old) }
    ensures { output.new ≡ read_of (string_of language quotes) text.now }
{
    let mut at: usize = 0;
    let mut k: usize = 0;
    let mut i: usize = 0;
    // A cursor: each turn goes to the next unit, kept or searched.
    while i < text.len() {
        let mark = next_kept(text, places, kept, k, i);
        at += marks::put_ahead(text, i, mark, &mut output[at..]);
        if mark == text.len() {
            return;
        }
        let n = units::length_of(text[mark + 1]);
        at += units::put_char(language, quotes, text, mark, &mut output[at..]);
        i = mark + n;
        k += 1;
    }
}
