// Reports whether sixteen bytes can be copied since none of them is replaced. A byte is compared by xor, which is 0 where it is the key, and the least of all the
// outcomes is kept: two vector instructions for each key. A test that is true or false for each byte and key is not compiled so,
// nor is one that has a branch, even if it is the same for every byte.
ghost use Rattle.std.specs.Prelude.{◌≡◌, ℕ, ◌<◌, length, get_or};
ghost use Rattle.encode_html.specs.Keys.{far_of};

use super::look::Keys;

// Returns 0 if the byte is `&`, `<` or one of the keys, else more: the least of sixteen such numbers is vector code.
fn far(k: Keys, b: u8) -> u8
    ensures { result ≡ far_of k b }
{
    let most = (b ^ b'&').min(b ^ b'<').min((b ^ k.gt).min(b ^ k.double));
    most.min((b ^ k.single).min(b ^ k.slash))
}

// Returns 0 if a byte of a part is `&`, `<` or one of the keys, else more. The loop has no early exit, so that sixteen bytes are one vector.
pub fn least(k: Keys, part: &[u8]) -> u8
    ensures { 0 < result → (i : ℕ) → i < length part.now → 0 < far_of k (get_or part.now i 0) }
{
    let mut m: u8 = 255;
    for b in part {
        m = m.min(far(k, *b));
    }
    m
}
