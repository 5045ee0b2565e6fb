// By how many bytes a byte grows in its encoding: three, four or five, or not at all. Each is a sum of comparisons, so that a loop over it has no
// branch and becomes vector code.
ghost use Rattle.std.specs.Prelude.{cond, ◌≡◌, ◌≤◌, ltb};
ghost use Rattle.rules.specs.declared.Html.TheVariants.{Unquoted};
ghost use Rattle.encode_html.specs.Gains.{grows_by, AreGainsOf};

use super::words::Words;
use rules::Html;

// A context, whether it replaces nothing but `&`, `<` and `>`, whether it replaces all punctuation, and 1 for each of `>`, `"`, `'` and `/` that it
// replaces, else 0.
#[derive(Clone, Copy)]
pub struct Gains {
    pub html: Html,
    pub text: bool,
    pub unquoted: bool,
    pub gt: u8,
    pub double: u8,
    pub single: u8,
    pub slash: u8,
    ghost right: { AreGainsOf html text unquoted gt double single slash },
}

// Returns 1 if the word of a byte has more than one byte, else 0. The word's highest byte is their number.
fn grows_to(word: u64) -> u8
    ensures { result ≡ cond (ltb word 0x200000000000000) 0 1 }
{
    u8::from(0x0200_0000_0000_0000 <= word)
}

// Returns which bytes of a context grow, read off its words.
pub fn gains_of(w: Words) -> Gains
    ensures { result.html ≡ w.html }
{
    Gains {
        html: w.html,
        text: w.text,
        unquoted: w.unquoted,
        gt: grows_to(w.gt),
        double: grows_to(w.double),
        single: grows_to(w.single),
        slash: grows_to(w.slash),
    }
}

// Returns 1 for a byte that grows by four bytes: `&`.
pub fn four(h: Html, b: u8) -> u8
    ensures { (result ≡ grows_by h 4 b) × (result ≤ 1) }
{
    base::when(b, b'&', 1)
}

// Returns 1 for a byte that grows by three bytes: `<`, and `>` if it is replaced.
pub fn three(g: Gains, b: u8) -> u8
    ensures { (result ≡ grows_by g.html 3 b) × (result ≤ 1) }
{
    base::when(b, b'<', 1) + base::when(b, b'>', g.gt)
}

// Returns 1 for a byte that grows by five bytes in an unquoted attribute: ASCII but for letters, digits, `&`, `<` and `>`.
fn five_unquoted(b: u8) -> u8
    ensures { result ≡ grows_by Unquoted 5 b }
{
    if (127 < b) | base::is_letter_or_digit(b) | (b == b'&') | (b == b'<') | (b == b'>') {
        return 0;
    }
    1
}

// Returns 1 for a byte that grows by five bytes. Its branches are the same for every byte.
pub fn five(g: Gains, b: u8) -> u8
    ensures { (result ≡ grows_by g.html 5 b) × (result ≤ 1) }
{
    if g.text {
        return 0;
    }
    if g.unquoted {
        return five_unquoted(b);
    }
    base::when(b, b'"', g.double) + base::when(b, b'\'', g.single) + base::when(b, b'/', g.slash)
}
