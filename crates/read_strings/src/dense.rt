// Measures most of a clear text that is full of units. Of every byte alike is told whether it begins a unit and whether that is one: no branch has to guess
// where the next unit is, and the tests become vector code.
ghost use Rattle.std.specs.Prelude.{◌≡◌, ℕ, ◌+◌, ◌≤◌, ◌<◌, length, get_or};
ghost use Rattle.read_strings.specs.Clear.{keys_of, Clear};
ghost use Rattle.read_strings.specs.Units.{is_form};
ghost use Rattle.read_strings.specs.Dense.{start_by, last_of, start_at, is_short, unless_it, longer_at, wrong_at, sum_to, Ready};

use crate::units;
use rules::{Language, Quotes};

// The bytes of a part, of which no sum is above 255.
const PART: usize = 240;

// The bytes after a backslash that are looked at.
const NEAR: usize = 5;

// What is counted in a part: its units, those with more than two bytes, and what is no unit.
#[derive(Clone, Copy)]
pub struct Sums {
    pub units: u8,
    pub longer: u8,
    pub wrong: u8,
}

// What a text that is units and bytes that are kept up to the first backslash from `from` on is measured to be: how much shorter its result is, and how many
// units it has.
#[derive(Clone, Copy)]
pub struct Begun {
    pub gain: usize,
    pub units: usize,
    pub from: usize,
}

// Returns 1 if a byte begins a unit, given the same of the byte before it, else 0.
fn start_of(last: u8, b: u8) -> u8
    ensures { result ≡ start_by last b }
{
    if (b == b'\\') & (last == 0) { 1 } else { 0 }
}

// Tells of each byte of a part whether it begins a unit, given the same of the byte before the part, and returns it of the last byte.
fn flag(text: &[u8], from: usize, last: u8, flags: &mut [u8; PART]) -> u8
    requires { (from + 240 ≤ length text.now) × (last ≡ last_of text.now from) × (length flags.old ≡ 240) }
    ensures { (result ≡ last_of text.now (from + 240)) × ((j : ℕ) → j < 240 → get_or flags.new j 0 ≡ start_at text.now (from + j)) × (length flags.new ≡ 240) }
{
    let mut before = last;
    for j in 0..PART {
        before = start_of(before, text[from + j]);
        flags[j] = before;
    }
    before
}

// Returns a number, or 0 if a test is passed: what is added up, without a branch.
fn unless(passed: bool, n: u8) -> u8
    ensures { (result ≡ unless_it passed n) × (result ≤ n) }
{
    if passed { 0 } else { n }
}

// Reports whether a unit with this second byte has two bytes.
fn is_short(b: u8) -> bool
    ensures { result ≡ is_short b }
{
    (b % 8 == 2) | (b % 8 == 4) | (b % 8 == 7)
}

// Counts the units of a part, given of which bytes they begin with.
fn count(language: Language, keys: &[u8; 2], flags: &[u8; PART], text: &[u8], from: usize) -> Sums
    requires { (from + 245 ≤ length text.now) × ((j : ℕ) → j < 240 → get_or flags.now j 0 ≡ start_at text.now (from + j)) }
    ensures { (sum_to (start_at text.now) (from + 240) ≡ sum_to (start_at text.now) from + result.units) × (sum_to (longer_at text.now) (from + 240) ≡ sum_to (longer_at text.now) from + result.longer) × (sum_to (wrong_at language keys.now text.now) (from + 240) ≡ sum_to (wrong_at language keys.now text.now) from + result.wrong) }
{
    let mut units: u8 = 0;
    let mut longer: u8 = 0;
    let mut wrong: u8 = 0;
    for j in 0..PART {
        let at = from + j;
        let b = text[at + 1];
        let form = units::is_form(
            language,
            keys,
            b,
            text[at + 2],
            text[at + 3],
            text[at + 4],
            text[at + 5],
        );
        units += flags[j];
        longer += unless(is_short(b), flags[j]);
        wrong += unless(form, flags[j]);
    }
    Sums {
        units,
        longer,
        wrong,
    }
}

// Counts the backslashes among the bytes of a text that are `step` apart.
fn sample(text: &[u8], step: usize) -> usize
    requires { (1 ≤ step) × (step ≤ length text.now + 1) }
{
    let mut n: usize = 0;
    let mut i: usize = 0;
    // Tried: `step_by` goes over the bytes between as well, and take of dense script strings took 29.2 instead of 20.1 instructions a byte.
    while i < text.len() {
        n += base::when(text[i], b'\\', 1) as usize;
        i += step;
    }
    n
}

// Reports whether about one in six bytes of a long text is a backslash, by 128 of them; where 32 of them have hardly one, that is enough.
pub fn is_dense(text: &[u8]) -> bool {
    if sample(text, text.len() / 32 + 1) < 2 {
        return false;
    }
    20 < sample(text, text.len() / 128 + 1)
}

// Returns that nothing is measured yet.
fn start() -> Begun
    ensures { (result.gain ≡ 0) × (result.units ≡ 0) × (result.from ≡ 0) }
{
    Begun {
        gain: 0,
        units: 0,
        from: 0,
    }
}

// Measures the parts of a text of which no offsets are kept; else nothing. None if what begins a unit is none.
pub fn begin(
    language: Language,
    quotes: Quotes,
    keys: &[u8; 2],
    text: &[u8],
    listed: usize,
) -> Option<Begun>
    requires { (keys.now ≡ keys_of quotes) × (length text.now ≤ 65536) × Clear language quotes text.now }
    ensures { Ready language quotes text.now listed result }
{
    if 0 < listed {
        return Some(start());
    }
    let mut flags = [1u8; PART];
    let mut last: u8 = 0;
    let mut units: usize = 0;
    let mut longer: usize = 0;
    let mut wrong: usize = 0;
    let mut i: usize = 0;
    // A cursor: each turn moves by a part, and looks at the bytes behind it too.
    while PART + NEAR <= text.len() - i {
        last = flag(text, i, last, &mut flags);
        let s = count(language, keys, &flags, text, i);
        units += s.units as usize;
        longer += s.longer as usize;
        wrong += s.wrong as usize;
        i += PART;
    }
    if 0 < wrong {
        return None;
    }
    if units == 0 {
        return Some(start());
    }
    Some(Begun {
        gain: units + longer * 2,
        units,
        from: i + last as usize,
    })
}
