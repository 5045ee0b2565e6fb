// The byte search of html-escape's functions.rs. Sixteen bytes at a time are skipped by one test that compiles to vector code; only the sixteen that
// have the byte are walked.
// Text, offset and byte stand beside one another in each contract: of a type around them each call would take another part of the text.
ghost use Rattle.std.specs.Prelude.{◌≡◌, ◌≤◌, length};
ghost use Rattle.rules.specs.Bytes.{over};
ghost use Rattle.base.specs.Places.{Absent, Nearest, Holds, part};

// The bytes that one test skips: one vector.
const BLOCK: usize = 16;

// Returns an offset up to which there is no such byte: sixteen at a time are skipped, up to the sixteen that have it, or until fewer are left.
pub fn pass(text: &[u8], from: usize, byte: u8) -> usize
    requires { from ≤ length text.now }
    ensures { (from ≤ result) × (result ≤ length text.now) × Absent text.now from result byte }
{
    let mut i = from;
    for block in text[from..].chunks_exact(BLOCK) {
        if block.contains(&byte) {
            return i;
        }
        i += BLOCK;
    }
    i
}

// Returns the first offset of a byte from `from` on, or the text's length, byte by byte.
fn walk(text: &[u8], from: usize, byte: u8) -> usize
    requires { from ≤ length text.now }
    ensures { Nearest text.now from byte result }
{
    match text[from..].iter().position(|b| *b == byte) {
        Some(k) => from + k,
        None => text.len(),
    }
}

// Returns the first offset of a byte from `from` on, or the text's length, which is no mark for none: a caller takes the bytes up to there. In dense
// text it is often `from` itself; else sixteen at a time are skipped, and the sixteen that have it, or the last bytes, are walked.
pub fn find_byte(text: &[u8], from: usize, byte: u8) -> usize
    requires { from ≤ length text.now }
    ensures { Nearest text.now from byte result }
{
    if from < text.len() && text[from] == byte {
        return from;
    }
    walk(text, pass(text, from, byte), byte)
}

// Copies `rest` up to the first of a byte, or all of it, to the start of `output`, leaves the bytes after it as they were, and returns how many were
// copied. It looks and copies in one loop, which is quicker if the byte is near.
fn put_near(rest: &[u8], byte: u8, output: &mut [u8]) -> usize
    requires { Holds rest.now 0 byte (length output.old) }
    ensures { Nearest rest.now 0 byte result × (output.new ≡ over (part rest.now 0 result) output.old) }
{
    for (n, b) in rest.iter().enumerate() {
        if *b == byte {
            return n;
        }
        output[n] = *b;
    }
    rest.len()
}

// Copies the text from `from` on up to the next of a byte, or the end, to the start of `output`, leaves the bytes after it as they were, and returns
// the offset of that byte. What is skipped by sixteens is copied at once.
pub fn put_until(text: &[u8], from: usize, byte: u8, output: &mut [u8]) -> usize
    requires { (from ≤ length text.now) × Holds text.now from byte (length output.old) }
    ensures { Nearest text.now from byte result × (output.new ≡ over (part text.now from result) output.old) }
{
    let p = pass(text, from, byte);
    let n = crate::put(&text[from..p], output);
    p + put_near(&text[p..], byte, &mut output[n..])
}
