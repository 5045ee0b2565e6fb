// Passes over a text before it is written: whether it is ASCII, by how many bytes it grows, and how many of them are replaced.
ghost use Rattle.std.specs.Prelude.{◌≡◌, true, false, ◌≤◌, length};
ghost use Rattle.base.specs.First.{Free};
ghost use Rattle.encode_html.specs.Gains.{Grows, Hits, Each, Ascii, Unchanged};
ghost use Rattle.encode_html.specs.Keys.{key_of, keys_of, special, special_at};

use super::Scan;
use super::gains::{Gains, five, four, three};

// Bytes that are counted together: fourteen vectors, and few enough for each count to fit a byte.
const PART: usize = 224;

// Bytes that are tested together before the outcome is looked at: many, since most texts have nothing to replace or have it early.
const BLOCK: usize = 1024;

// Counts by how many bytes a part grows and how many of its bytes are replaced, and finds its greatest byte, which tells whether it is ASCII. There
// is one count for each growth, so that a byte adds 1 to one of them or to none. The part is short enough for each to fit a byte.
fn tally(g: Gains, part: &[u8]) -> Scan
    requires { length part.now ≤ 224 }
    ensures { Grows g.html part.now result.grow × Hits g.html part.now result.replaced × (result.high ≡ 0 → Each Ascii part.now) }
{
    let mut greatest: u8 = 0;
    let mut threes: u8 = 0;
    let mut fours: u8 = 0;
    let mut fives: u8 = 0;
    for b in part {
        greatest = greatest.max(*b);
        threes += three(g, *b);
        fours += four(g.html, *b);
        fives += five(g, *b);
    }
    Scan {
        high: usize::from(128 <= greatest),
        grow: 3 * threes as usize + 4 * fours as usize + 5 * fives as usize,
        replaced: threes as usize + fours as usize + fives as usize,
    }
}

// Counts the same of a text, part by part.
pub fn count(g: Gains, text: &[u8]) -> Scan
    requires { length text.now ≤ 65536 }
    ensures { Grows g.html text.now result.grow × Hits g.html text.now result.replaced × (result.high ≡ 0 → Each Ascii text.now) }
{
    let mut all = Scan {
        high: 0,
        grow: 0,
        replaced: 0,
    };
    for part in text.chunks(PART) {
        let found = tally(g, part);
        all.high = all.high.max(found.high);
        all.grow += found.grow;
        all.replaced += found.replaced;
    }
    all
}

// The bytes besides `&`, `<` and non-ASCII that the context replaces; `&` stands in for one that it does not. With `text` the last three are
// not looked at.
#[derive(Clone, Copy)]
pub struct Keys {
    pub text: bool,
    pub gt: u8,
    pub double: u8,
    pub single: u8,
    pub slash: u8,
}

// Returns the byte if it grows, else `&`.
fn key(gain: u8, b: u8) -> u8
    ensures { result ≡ key_of gain b }
{
    if gain == 0 { b'&' } else { b }
}

// Returns the keys of a context, read off its growths.
pub fn keys_of(g: Gains) -> Keys
    ensures { result ≡ keys_of g.html }
{
    Keys {
        text: g.text,
        gt: key(g.gt, b'>'),
        double: key(g.double, b'"'),
        single: key(g.single, b'\''),
        slash: key(g.slash, b'/'),
    }
}

// Reports whether a byte is not ASCII or replaced. Its one branch is the same for every byte.
fn is_special(k: Keys, b: u8) -> bool
    ensures { result ≡ special k b }
{
    let most = (127 < b) | (b == b'&') | (b == b'<') | (b == k.gt);
    if k.text {
        return most;
    }
    most | (b == k.double) | (b == k.single) | (b == k.slash)
}

// Reports whether a part has such a byte. The loop has no early exit, so that it becomes vector code.
fn has_special(k: Keys, part: &[u8]) -> bool
    ensures { result ≡ false → Free (special_at k part.now) 0 (length part.now) }
{
    let mut hit = false;
    for b in part {
        hit |= is_special(k, *b);
    }
    hit
}

// Reports whether a text is ASCII with nothing to replace; true only if so. In an unquoted attribute it does not look: there such a text is plain,
// and the caller has tested for that.
pub fn is_unchanged(g: Gains, text: &[u8]) -> bool
    ensures { result ≡ true → Each (Unchanged g.html) text.now }
{
    if g.unquoted {
        return false;
    }
    let k = keys_of(g);
    for part in text.chunks(BLOCK) {
        if has_special(k, part) {
            return false;
        }
    }
    true
}
