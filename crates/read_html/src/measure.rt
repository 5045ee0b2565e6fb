// Measures what a clear text reads back as, and keeps where its units are.
ghost use Rattle.std.specs.Prelude.{IfSome, ◌≤◌, length};
ghost use Rattle.read_html.specs.Clear.{Clear};
ghost use Rattle.read_units.specs.Marks.{Told};

use read_units::{Found, units};
use rules::Html;

// Measures a text in which only `&` is replaced, and keeps the offsets of its first units in `places`; `None` if an `&` begins no unit.
pub fn measure(h: Html, text: &[u8], places: &mut [u16]) -> Option<Found>
    requires { (length text.now ≤ 65536) × Clear h text.now }
    ensures { IfSome result (λ found. Told h text.now places.new found) }
{
    let words = units::words_of(h);
    let mut gain: usize = 0;
    let mut units: usize = 0;
    let mut i: usize = 0;
    // A cursor: each turn moves past the unit that it read.
    while i < text.len() {
        let mark = find_ascii::find_near(text, i, b'&');
        if mark == text.len() {
            break;
        }
        if !units::is_unit(h, &words, text, mark) {
            return None;
        }
        marks::keep(places, units, mark);
        let n = units::length_of(text[mark + 1]);
        gain += n - 1;
        units += 1;
        i = mark + n;
    }
    let length = text.len() - gain;
    Some(Found { length, units })
}
