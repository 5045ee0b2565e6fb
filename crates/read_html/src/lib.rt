// The strict reader of the HTML contexts, for long ASCII texts. What encode writes has none of the bytes that it replaces but `&`: one look tells that
// the others are absent, and then only `&` is searched, once, since its offsets are kept for the writing. In an unquoted attribute units hold such bytes, and
// crates/read_unquoted measures.
// What the first look found of a text stands in each contract: text and output are lent side by side from step to step.
#![tactic(auto)]

mod look;
mod measure;

ghost use Rattle.std.specs.Prelude.{IfSome, true, ◌≡◌, ◌≤◌, length};
ghost use Rattle.rules.specs.declared.Context.TheVariants.{InHtml};
ghost use Rattle.read_units.specs.Marks.{Told};
ghost use Rattle.read_html.specs.Clear.{Tame};
ghost use Rattle.outcomes.specs.Outcomes.{Reads};

use outcomes::Outcome;
use read_units::Found;
use rules::Html;

// A text up to this length gets the short list of offsets, which takes less time to make.
const MEDIUM: usize = 4096;

// The offsets that are kept: of a text that has more units, `&` is searched again from there on.
const FEW: usize = 64;

const MANY: usize = 640;

// Measures a text by the reader of its context, and keeps the offsets of its first units; `None` if it cannot be read so.
fn survey(h: Html, text: &[u8], places: &mut [u16]) -> Option<Found>
    requires { (length text.now ≤ 65536) × Tame h text.now }
    ensures { IfSome result (λ found. Told h text.now places.new found) }
{
    if let Html::Unquoted = h {
        return read_unquoted::measure(text, places);
    }
    measure::measure(h, text, places)
}

// Reads a text, with a list for offsets.
fn read_with(h: Html, places: &mut [u16], text: &[u8], output: &mut [u8]) -> Outcome
    requires { (length text.now ≤ 65536) × Tame h text.now }
    ensures { Reads (InHtml h) text.now output.old output.new result }
{
    let Some(found) = survey(h, text, places) else {
        return Outcome::Untried;
    };
    if found.units == 0 {
        return Outcome::Same;
    }
    if output.len() < found.length {
        return Outcome::NoRoom(found.length);
    }
    let length = found.length;
    read_units::fill::write(h, text, places, found.units, &mut output[..length]);
    Outcome::Written(length, found.units)
}

// Reads a text, with a list for N offsets.
fn read_sized<const N: usize>(h: Html, text: &[u8], output: &mut [u8]) -> Outcome
    requires { (N ≤ 65536) × (length text.now ≤ 65536) × Tame h text.now }
    ensures { Reads (InHtml h) text.now output.old output.new result }
{
    let mut places = [0x100u16; N];
    read_with(h, &mut places, text, output)
}

// Reports whether a text is ASCII and has none of the bytes that the context replaces but `&`; true in an unquoted attribute, where units hold such bytes
// and the measuring finds whether another is in the text.
fn is_tame(h: Html, text: &[u8]) -> bool
    ensures { result ≡ true → Tame h text.now }
{
    if let Html::Unquoted = h {
        return true;
    }
    look::is_clear(h, text)
}

// Reads a text, if it is ASCII and has none of the bytes that the context replaces but `&`, or in an unquoted attribute those of its units.
pub fn read(h: Html, text: &[u8], output: &mut [u8]) -> Outcome
    ensures { Reads (InHtml h) text.now output.old output.new result }
{
    if rules::TEXT_LIMIT < text.len() || !is_tame(h, text) {
        return Outcome::Untried;
    }
    if text.len() <= MEDIUM {
        return read_sized::<FEW>(h, text, output);
    }
    read_sized::<MANY>(h, text, output)
}
