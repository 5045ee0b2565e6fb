// Finds the next byte that is no letter or digit. What is compared of a byte is 0 for a letter or digit, and the outcomes of sixteen are joined, so that
// they are one vector; a test that is true or false for each byte is not compiled so.
// Text and offset stand in each contract: each call goes on from another offset.
ghost use Rattle.std.specs.Prelude.{◌≡◌, ◌<◌, ◌≤◌, true, length};
ghost use Rattle.rules.specs.Tables.{letter_or_digit};
ghost use Rattle.base.specs.First.{Free};
ghost use Rattle.plain.specs.Plain.{special_at};

// Bytes that are tested together: one vector.
const BLOCK: usize = 16;

// Returns 0 only for a letter or digit: by how much the byte is off the letters, in either case, or off the digits, whichever is less.
fn odd(b: u8) -> u8
    ensures { result ≡ 0 → letter_or_digit b ≡ true }
{
    let letters = (b | 32).wrapping_sub(b'a').saturating_sub(25);
    let digits = b.wrapping_sub(b'0').saturating_sub(9);
    letters.min(digits)
}

// Returns 0 only if the bytes of a block are letters and digits.
fn oddest(block: &[u8]) -> u8
    ensures { result ≡ 0 → Free (special_at true block.now) 0 (length block.now) }
{
    let mut m: u8 = 0;
    for b in block {
        m |= odd(*b);
    }
    m
}

// Returns `j`, or 16 if the byte is a letter or digit.
fn pick(b: u8, j: u8) -> u8
    ensures { j < result → letter_or_digit b ≡ true }
{
    if odd(b) == 0 { 16 } else { j }
}

// Returns how many of the sixteen bytes of a block are letters and digits before one that is not. The loop has no early exit.
fn first(block: &[u8]) -> usize
    requires { length block.now ≡ 16 }
    ensures { (result ≤ 16) × Free (special_at true block.now) 0 result }
{
    let mut m: u8 = 16;
    for (j, b) in block.iter().enumerate() {
        m = m.min(pick(*b, j as u8));
    }
    usize::from(m)
}

// Skips letters and digits, sixteen bytes at a time.
fn pass(text: &[u8], from: usize) -> usize
    requires { from ≤ length text.now }
    ensures { (from ≤ result) × (result ≤ length text.now) × Free (special_at true text.now) from result }
{
    let mut i = from;
    for block in text[from..].chunks_exact(BLOCK) {
        if oddest(block) != 0 {
            return i;
        }
        i += BLOCK;
    }
    i
}

// Skips letters and digits, byte by byte.
fn walk(text: &[u8], from: usize) -> usize
    requires { from ≤ length text.now }
    ensures { (from ≤ result) × (result ≤ length text.now) × Free (special_at true text.now) from result }
{
    match text[from..]
        .iter()
        .position(|b| !base::is_letter_or_digit(*b))
    {
        Some(k) => from + k,
        None => text.len(),
    }
}

// Returns the offset of the next byte from `from` on that is no letter or digit, or the text's length. In dense text it is often `from` itself, or one of the
// next sixteen, which is found without a branch; else sixteen at a time are skipped, and the sixteen that have it, or the last bytes, are walked.
pub fn next(text: &[u8], from: usize) -> usize
    requires { from ≤ length text.now }
    ensures { (from ≤ result) × (result ≤ length text.now) × Free (special_at true text.now) from result }
{
    if from == text.len() || text[from] == b'&' {
        return from;
    }
    if text.len() - from < BLOCK {
        return walk(text, from);
    }
    let near = first(&text[from..from + BLOCK]);
    if near < BLOCK {
        return from + near;
    }
    walk(text, pass(text, from + BLOCK))
}
