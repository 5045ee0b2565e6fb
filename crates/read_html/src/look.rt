// The look for texts that are ASCII and have none of the bytes that a context replaces but `&`. A byte is compared by xor, and the least of all outcomes
// is kept, as in plain/src/look.rt.
ghost use Rattle.std.specs.Prelude.{true, ◌≡◌, ℕ, ◌≤◌, ◌<◌, length, get_or};
ghost use Rattle.read_html.specs.Clear.{Clear, keys_of, far_of};

use rules::Html;

// Bytes that are tested together before the outcome is looked at, as in plain/src/look.rt.
const BLOCK: usize = 1024;

// Returns what a byte is compared with: a mask and a key, twice, and a key. Two bytes that differ in one bit are one key under a mask, `<` and `>`, or `'`
// and `/`. The highest bit of a key is set, so that the xor is above 128 only for an ASCII byte that is not the key.
fn keys_of(h: Html) -> [u8; 5]
    ensures { result ≡ keys_of h }
{
    match h {
        Html::TextMinimal => [0, 0xBC, 0, 0xBC, 0xBC],
        Html::Text => [2, 0xBE, 0, 0xBC, 0xBC],
        Html::DoubleQuoted => [2, 0xBE, 0, 0xBC, 0xA2],
        Html::SingleQuoted => [2, 0xBE, 0, 0xA7, 0xBC],
        Html::Quoted => [2, 0xBE, 0, 0xA7, 0xA2],
        Html::Safe => [2, 0xBE, 8, 0xAF, 0xA2],
        Html::Unquoted => [255, 255, 255, 255, 255],
    }
}

// Returns the least xor of a byte with the keys.
fn far(keys: &[u8; 5], b: u8) -> u8
    ensures { result ≡ far_of keys.now b }
{
    let first = (b | keys[0]) ^ keys[1];
    let second = (b | keys[2]) ^ keys[3];
    first.min(second).min(b ^ keys[4])
}

// Returns the least of these for the bytes of a part. The loop has no early exit, so that it becomes vector code.
fn least(keys: &[u8; 5], part: &[u8]) -> u8
    ensures { (i : ℕ) → i < length part.now → result ≤ far_of keys.now (get_or part.now i 0) }
{
    let mut m: u8 = 255;
    for b in part {
        m = m.min(far(keys, *b));
    }
    m
}

// Reports whether a text is ASCII and has none of the bytes that the context replaces but `&`; false in an unquoted attribute.
pub fn is_clear(h: Html, text: &[u8]) -> bool
    ensures { result ≡ true → Clear h text.now }
{
    let keys = keys_of(h);
    for part in text.chunks(BLOCK) {
        if least(&keys, part) <= 128 {
            return false;
        }
    }
    true
}
