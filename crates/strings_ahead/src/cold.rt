// Whether sixteen bytes can be copied since none of them is escaped, and none is E2, with which line separators begin. By the least xor, as in
// crates/encode_html/src/cold.rt.
ghost use Rattle.std.specs.Prelude.{◌≡◌, ℕ, ◌≤◌, ◌<◌, length, get_or};
ghost use Rattle.strings_ahead.specs.Ahead.{far_in};

use encode_strings::rule;

// Returns 0 if the byte is below the space, `<`, the backslash, E2 or one of the quotes, else more: the least of sixteen such numbers is vector code.
fn far(single: u8, double: u8, b: u8) -> u8
    ensures { result ≡ far_in single double b }
{
    let fixed = (b & 0xE0)
        .min(b ^ b'<')
        .min((b ^ b'\\').min(b ^ rule::SEPARATOR_LEAD));
    fixed.min((b ^ single).min(b ^ double))
}

// Returns 0 if one of the first sixteen bytes of a text is such a byte, else more.
pub fn least(single: u8, double: u8, text: &[u8]) -> u8
    requires { 16 ≤ length text.now }
    ensures { 0 < result → (i : ℕ) → i < 16 → 0 < far_in single double (get_or text.now i 0) }
{
    let mut m: u8 = 255;
    for b in &text[..16] {
        m = m.min(far(single, double, *b));
    }
    m
}
