// The strict reader of script and style strings, for long ASCII texts. What encode writes has none of the bytes that it replaces but backslashes and the
// quotes after them: one look tells that the others are absent, and then only the backslash is searched.
// What the first look found of a text stands in each contract, with the language and the quotes: text and output are lent side by side from step to step.
#![tactic(auto)]

mod dense;
mod fill;
mod look;
mod measure;
mod units;

ghost use Rattle.std.specs.Prelude.{◌≤◌, length};
ghost use Rattle.rules.specs.Contexts.{string_of};
ghost use Rattle.outcomes.specs.Outcomes.{Reads};
ghost use Rattle.read_strings.specs.Clear.{Clear};

use outcomes::Outcome;
use rules::{Language, Quotes};

// A text up to this length gets the short list of offsets, which takes less time to make.
const MEDIUM: usize = 4096;

// The offsets that are kept: of a text that has more units, the backslash is searched again from there on.
const FEW: usize = 64;

const MANY: usize = 640;

// Reads a text that passed the look, with a list for offsets.
fn read_with(
    language: Language,
    quotes: Quotes,
    places: &mut [u16],
    text: &[u8],
    output: &mut [u8],
) -> Outcome
    requires { (length text.now ≤ 65536) × Clear language quotes text.now }
    ensures { Reads (string_of language quotes) text.now output.old output.new result }
{
    let Some(found) = measure::measure(language, quotes, text, places) else {
        return Outcome::Untried;
    };
    if found.units == 0 {
        return Outcome::Same;
    }
    if output.len() < found.length {
        return Outcome::NoRoom(found.length);
    }
    let kept = found.units.min(places.len());
    let length = found.length;
    fill::write(language, quotes, text, places, kept, &mut output[..length]);
    Outcome::Written(length, found.units)
}

// Returns how many offsets are kept of a long text: none if it is full of units, as then it is measured without them.
fn list_of(text: &[u8]) -> usize
    ensures { result ≤ 640 }
{
    if dense::is_dense(text) {
        return 0;
    }
    MANY
}

// Does so with a list that has room for N offsets, of which `listed` are kept.
fn read_sized<const N: usize>(
    language: Language,
    quotes: Quotes,
    listed: usize,
    text: &[u8],
    output: &mut [u8],
) -> Outcome
    requires { (listed ≤ N) × (N ≤ 65536) × (length text.now ≤ 65536) × Clear language quotes text.now }
    ensures { Reads (string_of language quotes) text.now output.old output.new result }
{
    let mut places = [0x100u16; N];
    read_with(language, quotes, &mut places[..listed], text, output)
}

// Reads a text of a string, if it is ASCII and has none of the bytes that the string replaces but in its units.
pub fn read(language: Language, quotes: Quotes, text: &[u8], output: &mut [u8]) -> Outcome
    ensures { Reads (string_of language quotes) text.now output.old output.new result }
{
    if rules::TEXT_LIMIT < text.len() {
        return Outcome::Untried;
    }
    if !look::is_clear(language, quotes, text) {
        return Outcome::Untried;
    }
    if text.len() <= MEDIUM {
        return read_sized::<FEW>(language, quotes, FEW, text, output);
    }
    read_sized::<MANY>(language, quotes, list_of(text), text, output)
}
