// The look for texts that are ASCII and have none of the bytes that a string replaces but backslashes, and quotes right after a backslash.
ghost use Rattle.std.specs.Prelude.{true, ◌≡◌, ℕ, ◌≤◌, ◌<◌, length, get_or};
ghost use Rattle.read_strings.specs.Clear.{Clear, keys_of, is_key, is_good, far_of, before_in};

use rules::{Language, Quotes};

// Bytes that are tested together before the outcome is looked at, as in plain/src/look.rt.
const BLOCK: usize = 1024;

// Returns the quotes that a string replaces: two, or one twice.
pub fn keys_of(quotes: Quotes) -> [u8; 2]
    ensures { result ≡ keys_of quotes }
{
    match quotes {
        Quotes::Single => [b'\'', b'\''],
        Quotes::Double => [b'"', b'"'],
        Quotes::Both => [b'\'', b'"'],
    }
}

// Reports whether a byte is one of the quotes.
pub fn is_key(keys: &[u8; 2], b: u8) -> bool
    ensures { result ≡ is_key keys.now b }
{
    (b == keys[0]) | (b == keys[1])
}

// Reports whether a byte may stand after another one: it is ASCII, no control and no `<`, and no quote unless the other is a backslash.
fn is_good(keys: &[u8; 2], before: u8, b: u8) -> bool
    ensures { result ≡ is_good keys.now before b }
{
    base::is_within(b' ', 127, b) & (b != b'<') & ((before == b'\\') | !is_key(keys, b))
}

// Returns 255 for such a byte, else 0: the least of many such numbers is vector code, an `and` of booleans is not.
fn far(keys: &[u8; 2], before: u8, b: u8) -> u8
    ensures { result ≡ far_of keys.now before b }
{
    if is_good(keys, before, b) { 255 } else { 0 }
}

// Returns the least of these for the bytes of a part that follows the byte `before`. The loop has no early exit, so that it becomes vector code.
fn least(keys: &[u8; 2], before: u8, part: &[u8]) -> u8
    requires { 1 ≤ length part.now }
    ensures { (i : ℕ) → i < length part.now → result ≤ far_of keys.now (before_in before part.now i) (get_or part.now i 0) }
{
    let mut m = far(keys, before, part[0]);
    for i in 1..part.len() {
        m = m.min(far(keys, part[i - 1], part[i]));
    }
    m
}

// Reports whether a text is ASCII and has none of the bytes that the string replaces but backslashes, and quotes right after a backslash.
pub fn is_clear(language: Language, quotes: Quotes, text: &[u8]) -> bool
    ensures { result ≡ true → Clear language quotes text.now }
{
    let keys = keys_of(quotes);
    let mut before: u8 = 0;
    let mut i: usize = 0;
    // A cursor: each turn looks at a block with the byte before it, which an iterator of blocks does not tell.
    while i < text.len() {
        let end = base::clip(i, text.len(), BLOCK);
        if least(&keys, before, &text[i..end]) == 0 {
            return false;
        }
        before = text[end - 1];
        i = end;
    }
    true
}
