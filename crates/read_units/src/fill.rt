// Writes what a text that can be read to its end reads back as. What stands between two units is copied at once, and a unit gives way to its character.
// What measuring found of a text stands in each contract: it is its caller's text, and the places are lent beside it.
ghost use Rattle.std.specs.Prelude.{◌≡◌, ◌≤◌, length};
ghost use Rattle.rules.specs.Operations.{read_of};
ghost use Rattle.rules.specs.declared.Context.TheVariants.{InHtml};
ghost use Rattle.find_ascii.specs.Words.{Ascii};
ghost use Rattle.read_units.specs.Marks.{Rest, Reaches, Marked};

use crate::units;
use rules::Html;

// A text that has a unit for this many bytes of the result or fewer is written step by step, since no branch could guess where the next unit is.
const DENSE: usize = 4;

// The bytes from an offset on within which a unit is looked at.
const NEAR: usize = 6;

// Writes what the text from an offset on reads back as to an output that is as long as that. A unit gives way to its character, and what stands between two
// units is copied ahead.
fn write_rest(h: Html, text: &[u8], from: usize, output: &mut [u8])
    requires { (from ≤ length text.now) × Ascii text.now × Reaches h text.now from × (length (Rest h text.now from) ≡ length output.old) }
    ensures { output.new ≡ Rest h text.now from }
{
    let mut at: usize = 0;
    let mut i = from;
    // A cursor: each turn moves past the unit that it wrote.
    while i < text.len() {
        let mark = find_ascii::find_near(text, i, b'&');
        at += marks::put_ahead(text, i, mark, &mut output[at..]);
        if mark == text.len() {
            return;
        }
        at += units::put_char(h, text, mark, &mut output[at..]);
        i = mark + units::length_of(text[mark + 1]);
    }
}

// Writes a text, given the offsets of its first units.
fn write_kept(h: Html, text: &[u8], places: &[u16], output: &mut [u8])
    requires { Ascii text.now × Reaches h text.now 0 × Marked text.now places.now (length places.now) × (length (Rest h text.now 0) ≡ length output.old) }
    ensures { output.new ≡ Rest h text.now 0 }
{
    let mut at: usize = 0;
    let mut i: usize = 0;
    for place in places {
        let mark = usize::from(*place);
        at += base::put_run(&text[i..mark], &mut output[at..]);
        at += units::put_char(h, text, mark, &mut output[at..]);
        i = mark + units::length_of(text[mark + 1]);
    }
    write_rest(h, text, i, &mut output[at..]);
}

// Writes a text step by step, a byte or a unit at a time.
fn write_steps(h: Html, text: &[u8], output: &mut [u8])
    requires { Ascii text.now × Reaches h text.now 0 × (length (Rest h text.now 0) ≡ length output.old) }
    ensures { output.new ≡ Rest h text.now 0 }
{
    let mut at: usize = 0;
    let mut i: usize = 0;
    // A cursor: each turn moves by the length of the byte or the unit that it read.
    while NEAR <= text.len() - i {
        at += units::put_step(text, i, &mut output[at..]);
        i += units::step_of(text[i], text[i + 1]);
    }
    write_rest(h, text, i, &mut output[at..]);
}

// Writes the result, from `count` units, of an ASCII text that is read as a whole, given the offsets of its first units, to an output that is as long as the
// result.
pub fn write(h: Html, text: &[u8], places: &[u16], count: usize, output: &mut [u8])
    requires { Ascii text.now × Reaches h text.now 0 × Marked text.now places.now count × (length (read_of (InHtml h) text.now) ≡ length output.old) }
    ensures { output.new ≡ read_of (InHtml h) text.now }
{
    if output.len() / DENSE < count {
        write_steps(h, text, output);
        return;
    }
    let kept = count.min(places.len());
    write_kept(h, text, &places[..kept], output);
}
