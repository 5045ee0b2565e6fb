// The look for long texts that are ASCII without one byte. A byte is compared by xor, which is 0 where it is the other, and the least of all outcomes is
// kept: two vector instructions for sixteen bytes, and no count that could overflow, so that a block may be long.
ghost use Rattle.std.specs.Prelude.{true, ◌≡◌, ◌<◌};
ghost use Rattle.plain.specs.Plain.{lesser, Without};

// Bytes that are tested together before the outcome is looked at: many, since most texts have none of what is looked for or have it early.
const BLOCK: usize = 1024;

// Returns the least xor of a byte of the part with the byte, whose highest bit is set: that of an ASCII byte is above 128, or 128 where it is the byte, and
// below for any other. The loop has no early exit, so that it becomes vector code.
fn least(byte: u8, part: &[u8]) -> u8
    requires { byte < 128 }
    ensures { 128 < result → Without byte part.now }
{
    let key = byte + 128;
    let mut m: u8 = 255;
    for b in part {
        m = m.min(*b ^ key);
    }
    m
}

// Reports whether a text is ASCII and has no `byte`.
pub fn is_without(byte: u8, text: &[u8]) -> bool
    requires { byte < 128 }
    ensures { result ≡ true → Without byte text.now }
{
    for part in text.chunks(BLOCK) {
        if least(byte, part) <= 128 {
            return false;
        }
    }
    true
}
