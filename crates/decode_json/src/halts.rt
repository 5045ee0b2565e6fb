// Finds the next byte that may not stand by itself: a quotation mark, a backslash or a byte 0 to 31. Its offset among sixteen bytes is computed without
// a branch and compiles to vector code, since a branch for each byte would be guessed wrong at each escape.
// Text and offset stand in each contract: each call goes on from another offset.
ghost use Rattle.std.specs.Prelude.{cond, ◌≡◌, ◌+◌, ◌-◌, ◌≤◌, eqb, ltb, length, take, drop};
ghost use Rattle.rules.specs.Bytes.{one_of, over};
ghost use Rattle.rules.specs.Json.{escaped_only};
ghost use Rattle.base.specs.First.{First};
ghost use Rattle.decode_json.specs.Escapes.{halt_at, Room};

// How many bytes `put_until` looks at one by one before it takes sixteen at a time.
const NEAR: usize = 24;

// Reports whether a byte may not stand by itself in a JSON string.
fn is_halt(b: u8) -> bool
    ensures { result ≡ one_of escaped_only b }
{
    (b < b' ') | (b == b'"') | (b == b'\\')
}

// Returns 0 for a byte that may not stand by itself, for any other a number from 1 to 7: the least of sixteen is one vector instruction, which an Option is not.
fn distance(b: u8) -> u8
    ensures { (result ≤ 7) × (eqb result 0 ≡ one_of escaped_only b) }
{
    (b / 32).min(b ^ b'"').min(b ^ b'\\')
}

// Returns how many of the sixteen bytes from offset `at` on stand before the first such byte, 16 if there is none. It takes the least of sixteen
// numbers, and 1 off: of the byte after j others the number is j + 1 if it is such a byte, else 33 or more.
fn first(text: &[u8], at: usize) -> usize
    requires { at + 16 ≤ length text.now }
    ensures { First (halt_at text.now) (at + 16) at (at + result) }
{
    let mut n: u8 = 17;
    for j in 0..16u8 {
        n = n.min(distance(text[at + j as usize]) * 32 + (j + 1));
    }
    (n - 1) as usize
}

// Returns the first offset of such a byte from `from` on, or the text's length, byte by byte.
fn walk(text: &[u8], from: usize) -> usize
    requires { from ≤ length text.now }
    ensures { First (halt_at text.now) (length text.now) from result }
{
    for i in from..text.len() {
        if is_halt(text[i]) {
            return i;
        }
    }
    text.len()
}

// Returns the first offset of such a byte from `from` on, or the text's length: among sixteen bytes at a time, and byte by byte where fewer are left.
pub fn next_halt(text: &[u8], from: usize) -> usize
    requires { from ≤ length text.now }
    ensures { First (halt_at text.now) (length text.now) from result }
{
    let mut i = from;
    // A cursor: what is found, and where the last bytes are walked from, are places of the text, which an iterator of blocks does not tell.
    while 16 <= text.len() - i {
        let n = first(text, i);
        if n < 16 {
            return i + n;
        }
        i += 16;
    }
    walk(text, i)
}

// Copies the text from `from` on up to such a byte, or to `end`, to the start of `output`, leaves the bytes after it as they were, and returns where
// it stopped. It looks and copies in one loop, which is quicker if the byte is near.
fn put_near(text: &[u8], from: usize, end: usize, output: &mut [u8]) -> usize
    requires { (from ≤ end) × (end ≤ length text.now) × Room text.now from (length output.old) }
    ensures { First (halt_at text.now) end from result × (output.new ≡ over (take (result - from) (drop from text.now)) output.old) }
{
    for i in from..end {
        if is_halt(text[i]) {
            return i;
        }
        output[i - from] = text[i];
    }
    end
}

// Copies the text from `from` on up to such a byte, or all of it, to the start of `output`, leaves the bytes after it as they were, and returns the
// offset of that byte. If none of the next `NEAR` bytes is one, the rest is copied at once.
pub fn put_until(text: &[u8], from: usize, output: &mut [u8]) -> usize
    requires { (from ≤ length text.now) × Room text.now from (length output.old) }
    ensures { First (halt_at text.now) (length text.now) from result × (output.new ≡ over (take (result - from) (drop from text.now)) output.old) }
{
    let end = from + NEAR.min(text.len() - from);
    let near = put_near(text, from, end, output);
    if near < end {
        return near;
    }
    let far = next_halt(text, near);
    base::put(&text[near..far], &mut output[near - from..]);
    far
}
