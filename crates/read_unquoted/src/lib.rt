// The strict reader of the unquoted attribute, for long ASCII texts: measures what a text reads back as, and keeps where its units are. What encode writes
// there has letters, digits and units alone, so that the first byte that is no letter or digit must begin a unit.
#![tactic(auto)]

mod units;
mod walk;

ghost use Rattle.std.specs.Prelude.{IfSome, ◌≤◌, length};
ghost use Rattle.rules.specs.declared.Html.TheVariants.{Unquoted};
ghost use Rattle.read_units.specs.Marks.{Told};

use read_units::Found;
use rules::Html;

// Measures a text, and keeps the offsets of its first units in `places`; `None` if it is not as a whole units, letters and digits. It is no one function
// with that of crates/read_html, which is given that the text is ASCII and looks for `&` alone: this one finds both out on its way.
pub fn measure(text: &[u8], places: &mut [u16]) -> Option<Found>
    requires { length text.now ≤ 65536 }
    ensures { IfSome result (λ found. Told Unquoted text.now places.new found) }
{
    let words = read_units::units::words_of(Html::Unquoted);
    let mut gain: usize = 0;
    let mut units: usize = 0;
    let mut i = walk::next(text, 0);
    // A cursor: each turn moves past a unit and the letters and digits after it.
    while i < text.len() {
        if !units::is_unit(&words, text, i) {
            return None;
        }
        marks::keep(places, units, i);
        let n = read_units::units::length_of(text[i + 1]);
        gain += n - 1;
        units += 1;
        i = walk::next(text, i + n);
    }
    let length = text.len() - gain;
    Some(Found { length, units })
}
