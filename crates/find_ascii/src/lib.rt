// The search for a byte in ASCII text, eight bytes at a time as one number. Where the byte is near it needs no branch for each byte before it.
// That the text is ASCII stands in each contract: the text is its caller's, who cuts it and hands its parts on to others too.
// So does that the byte is ASCII: it is a constant of each caller.
#![tactic(auto)]

ghost use Rattle.std.specs.Prelude.{MatchOption, ◌≡◌, ◌+◌, ◌-◌, ◌≤◌, ◌<◌, length};
ghost use Rattle.base.specs.Places.{Absent, Nearest};
ghost use Rattle.find_ascii.specs.Words.{word_at, hits_of, Ascii};

// The number whose eight bytes are 1.
const ONES: u64 = 0x0101_0101_0101_0101;

// Returns eight bytes as a number, the first lowest.
fn word(block: &[u8]) -> u64
    requires { length block.now ≡ 8 }
    ensures { result ≡ word_at block.now 0 8 }
{
    let mut eight = [0; 8];
    eight.copy_from_slice(block);
    u64::from_le_bytes(eight)
}

// Returns a number that has the highest bit of each byte of `word` that is `byte`: two sums differ there in one only if the byte is that byte, and no sum is
// above 255, as both are ASCII.
fn hits(word: u64, byte: u8) -> u64
    requires { (byte < 128) × (word ≤ 0x7F7F7F7F7F7F7F7F) }
    ensures { result ≡ hits_of (127 - byte) 8 word }
{
    ((word + u64::from(128 - byte) * ONES) ^ (word + u64::from(127 - byte) * ONES)) & (128 * ONES)
}

// Returns which of eight ASCII bytes is the first that is `byte`, if one of them is.
fn first_of_eight(block: &[u8], byte: u8) -> Option<usize>
    requires { (byte < 128) × (length block.now ≡ 8) × Ascii block.now }
    ensures { MatchOption result (Absent block.now 0 8 byte) (λ j. Nearest block.now 0 byte j × (j < 8)) }
{
    let found = hits(word(block), byte);
    if found == 0 {
        return None;
    }
    Some((found.trailing_zeros() / 8) as usize)
}

// Returns the first offset of an ASCII byte from `from` on, or the text's length.
pub fn find(text: &[u8], from: usize, byte: u8) -> usize
    requires { (byte < 128) × (from ≤ length text.now) × Ascii text.now }
    ensures { Nearest text.now from byte result }
{
    let mut i = from;
    for block in text[from..].chunks_exact(8) {
        if let Some(j) = first_of_eight(block, byte) {
            return i + j;
        }
        i += 8;
    }
    base::find::find_byte(text, i, byte)
}

// Does the same where the byte is far: sixteen bytes at a time are skipped, and the sixteen that have it are searched by eights.
fn find_far(text: &[u8], from: usize, byte: u8) -> usize
    requires { (byte < 128) × (from ≤ length text.now) × Ascii text.now }
    ensures { Nearest text.now from byte result }
{
    find(text, base::find::pass(text, from, byte), byte)
}

// Does the same, quickest where the byte is at `from` or within sixteen bytes, which are searched by eights.
pub fn find_near(text: &[u8], from: usize, byte: u8) -> usize
    requires { (byte < 128) × (from ≤ length text.now) × Ascii text.now }
    ensures { Nearest text.now from byte result }
{
    if 16 <= text.len() - from {
        if text[from] == byte {
            return from;
        }
        if let Some(j) = first_of_eight(&text[from..from + 8], byte) {
            return from + j;
        }
        if let Some(j) = first_of_eight(&text[from + 8..from + 16], byte) {
            return from + 8 + j;
        }
    }
    find_far(text, from, byte)
}
