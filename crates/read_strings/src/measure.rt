// Measures what a clear text reads back as, and keeps where its units are.
ghost use Rattle.std.specs.Prelude.{◌≡◌, ◌≤◌, length};
ghost use Rattle.base.specs.Places.{Nearest};
ghost use Rattle.find_ascii.specs.Words.{Ascii};
ghost use Rattle.read_strings.specs.Clear.{Clear};
ghost use Rattle.read_strings.specs.Marks.{Told};

use crate::{dense, look, units};
use rules::{Language, Quotes};

// What is found of a text that is units and bytes that are kept: the length of the result, and how many units it has.
#[derive(Clone, Copy)]
pub struct Found {
    pub length: usize,
    pub units: usize,
}

// Returns the first offset of a backslash of an ASCII text from `from` on, or the text's length. In dense text it is often `from` itself, which is tested
// without a call.
fn next_mark(text: &[u8], from: usize) -> usize
    requires { (from ≤ length text.now) × Ascii text.now }
    ensures { Nearest text.now from 92 result }
{
    if units::byte_at(text, from) == b'\\' {
        return from;
    }
    find_ascii::find(text, from, b'\\')
}

// Measures a text in which only backslashes are to be tested, and keeps the offsets of its first units in `places`. That a unit is none is told at the
// end: a branch for each would be guessed wrongly too often, as it is made of several tests.
pub fn measure(language: Language, quotes: Quotes, text: &[u8], places: &mut [u16]) -> Option<Found>
    requires { (length text.now ≤ 65536) × Clear language quotes text.now }
    ensures { Told language quotes text.now places.new result }
{
    let keys = look::keys_of(quotes);
    let begun = dense::begin(language, quotes, &keys, text, places.len())?;
    let mut whole = true;
    let mut gain = begun.gain;
    let mut units = begun.units;
    let mut i = next_mark(text, begun.from);
    // A cursor: each turn goes to the next backslash after the unit.
    while i < text.len() {
        whole &= units::is_unit(language, quotes, &keys, text, i);
        marks::keep(places, units, i);
        let second = units::byte_at(text, i + 1);
        let n = units::length_of(second);
        if text.len() - i < n {
            return None;
        }
        gain += units::gain_of(second);
        units += 1;
        i = next_mark(text, i + n);
    }
    if !whole {
        return None;
    }
    Some(Found {
        length: text.len() - gain,
        units,
    })
}
