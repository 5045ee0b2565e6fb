// The encoder of raw script text, html-escape's script.rs and encode_impl.rs: a backslash goes in after each `<` that could open a comment or close
// the element. Only a `<` before `!` or `/` can: blocks without one are skipped by one test, and everything between is copied.
// Text and end stand in each contract: what follows the end is read too, so that a slice up to the end would not do.
#![tactic(auto)]

ghost use Rattle.std.specs.Prelude.{true, false, ◌≡◌, ℕ, ◌+◌, ◌≤◌, ◌<◌, length, take, get_or};
ghost use Rattle.rules.specs.Bytes.{over};
ghost use Rattle.rules.specs.Encoding.{parted, raw_step};
ghost use Rattle.rules.specs.Moves.{through, result as result_of};
ghost use Rattle.rules.specs.Operations.{raw_of};
ghost use Rattle.base.specs.First.{Free, First};
ghost use Rattle.plain.specs.Plain.{Without};
ghost use Rattle.encode_raw.specs.Cuts.{suspect, cut_at};

// The bytes that are tested together: one vector.
const BLOCK: usize = 16;

// Reports whether a backslash has to go between a `<` and the bytes that follow it.
fn is_parted(rest: &[u8]) -> bool
    ensures { result ≡ parted rest.now }
{
    base::prefix::starts(b"!--", rest) || base::prefix::closes_with(b"/script", true, rest)
}

// Reports whether the bytes `a` and `b` are `<!` or `</`, without which no backslash goes in.
fn is_suspect(a: u8, b: u8) -> bool
    ensures { result ≡ suspect a b }
{
    (a == b'<') & ((b == b'!') | (b == b'/'))
}

// Reports whether a block has a `<!` or `</`. The loop has no early exit, so that it becomes vector code.
fn has_suspect(block: &[u8]) -> bool
    ensures { result ≡ false → (k : ℕ) → k + 1 < length block.now → suspect (get_or block.now k 0) (get_or block.now (k + 1) 0) ≡ false }
{
    let mut hit = false;
    for pair in block.windows(2) {
        hit |= is_suspect(pair[0], pair[1]);
    }
    hit
}

// Skips blocks from `from` on and returns the start of the first that has a `<!` or `</`, or of what is left before `end` after the last block. The
// byte after a block is read as well.
fn skip_blocks(text: &[u8], from: usize, end: usize) -> usize
    requires { (from ≤ end) × (end ≤ length text.now) }
    ensures { (from ≤ result) × (result ≤ end) × Free (cut_at text.now) from result }
{
    let mut i = from;
    // A cursor: each block is read with the byte after it, which the next one begins with.
    while BLOCK < end - i {
        if has_suspect(&text[i..i + BLOCK + 1]) {
            return i;
        }
        i += BLOCK;
    }
    i
}

// Returns the first offset from `from` on and before `end` of a `<` that a backslash goes in after, or `end`. What follows `end` counts.
fn next_cut(text: &[u8], from: usize, end: usize) -> usize
    requires { (from ≤ end) × (end ≤ length text.now) }
    ensures { First (cut_at text.now) end from result }
{
    let mut i = skip_blocks(text, from, end);
    // A cursor: past a `<` that is not parted, blocks are skipped again.
    while i < end {
        if text[i] != b'<' {
            i += 1;
            continue;
        }
        if is_parted(&text[i + 1..]) {
            return i;
        }
        i = skip_blocks(text, i + 1, end);
    }
    i
}

// Returns the length of the encoding of the first `end` bytes of a text. What follows them is looked at: it decides about a `<` near the end.
pub fn measure_to(text: &[u8], end: usize) -> usize
    requires { (length text.now ≤ 65536) × (end ≤ length text.now) }
    ensures { result ≡ length (result_of (take end (through raw_step text.now))) }
{
    let mut n: usize = 0;
    let mut i: usize = 0;
    // A cursor: each turn moves past the next `<` that a backslash goes in after.
    while i < end {
        let e = next_cut(text, i, end);
        n += e - i;
        if e == end {
            return n;
        }
        n += 2;
        i = e + 1;
    }
    n
}

// Returns the length of the encoding of a text.
pub fn measure(text: &[u8]) -> usize
    requires { length text.now ≤ 65536 }
    ensures { result ≡ length (raw_of text.now) }
{
    measure_to(text, text.len())
}

// Writes the encoding of the first `end` bytes of a text, as `measure_to` counts it, to the start of `output` and returns its length; the bytes after it
// keep their values.
pub fn write_to(text: &[u8], end: usize, output: &mut [u8]) -> usize
    requires { (end ≤ length text.now) × (length (result_of (take end (through raw_step text.now))) ≤ length output.old) }
    ensures { (result ≡ length (result_of (take end (through raw_step text.now)))) × (output.new ≡ over (result_of (take end (through raw_step text.now))) output.old) }
{
    let mut at: usize = 0;
    let mut i: usize = 0;
    // A cursor, as in `measure_to`.
    while i < end {
        let e = next_cut(text, i, end);
        at += base::put(&text[i..e], &mut output[at..]);
        if e == end {
            return at;
        }
        at += base::put(b"<\\", &mut output[at..]);
        i = e + 1;
    }
    at
}

// Writes the same; a text that is `clear`, ASCII without `<`, is copied.
pub fn write_with(clear: bool, text: &[u8], end: usize, output: &mut [u8]) -> usize
    requires { (end ≤ length text.now) × (length (result_of (take end (through raw_step text.now))) ≤ length output.old) × (clear ≡ true → Without 60 text.now) }
    ensures { (result ≡ length (result_of (take end (through raw_step text.now)))) × (output.new ≡ over (result_of (take end (through raw_step text.now))) output.old) }
{
    if clear {
        return base::put(&text[..end], output);
    }
    write_to(text, end, output)
}

// Writes the encoding of a text to the start of `output` and returns its length; the bytes after it keep their values.
pub fn write(text: &[u8], output: &mut [u8]) -> usize
    requires { length (raw_of text.now) ≤ length output.old }
    ensures { (result ≡ length (raw_of text.now)) × (output.new ≡ over (raw_of text.now) output.old) }
{
    write_to(text, text.len(), output)
}
