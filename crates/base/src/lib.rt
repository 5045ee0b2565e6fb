// What many crates share: copying into an output, splitting a text into parts, and tests of a byte or a number.
// The lengths of text and output stand in each contract: both are slices, cut anew for each call, and no type is longer lived than one call.
#![tactic(auto)]

pub mod chars;
pub mod find;
pub mod prefix;
pub mod words;

ghost use Rattle.std.specs.Prelude.{IfSome, cond, ◌≡◌, ℕ, ◌+◌, ◌≤◌, ◌<◌, eqb, leb, length, take};
ghost use Rattle.rules.specs.Bytes.{over, inside};
ghost use Rattle.rules.specs.Tables.{letter_or_digit, hex_digit};
ghost use Rattle.rules.specs.References.{digit, hex_digit_at};
ghost use Rattle.base.specs.Digits.{found_as, upper_digit, under, upper_of, letter_of, value_with, of_sixteen};

// Copies `bytes` to the start of `output`, leaves the bytes after them as they were, and returns how many they are.
pub fn put(bytes: &[u8], output: &mut [u8]) -> usize
    requires { length bytes.now ≤ length output.old }
    ensures { (result ≡ length bytes.now) × (output.new ≡ over bytes.now output.old) }
{
    let n = bytes.len();
    output[..n].copy_from_slice(bytes);
    n
}

// Copies the first eight bytes of a text to the start of `output`. All are read before the first is written: one load and one store. A copy of the slice
// takes three instructions more, which test that the two do not overlap: 4.6 instead of 3.6 a byte for a long plain string of a script.
fn put_eight(text: &[u8], output: &mut [u8])
    requires { (8 ≤ length text.now) × (8 ≤ length output.old) }
    ensures { output.new ≡ over (take 8 text.now) output.old }
{
    let a = text[0];
    let b = text[1];
    let c = text[2];
    let d = text[3];
    let e = text[4];
    let f = text[5];
    let g = text[6];
    let h = text[7];
    output[0] = a;
    output[1] = b;
    output[2] = c;
    output[3] = d;
    output[4] = e;
    output[5] = f;
    output[6] = g;
    output[7] = h;
}

// Copies a text of eight bytes or more, eight at a time; the last eight may overlap those before.
fn put_eights(text: &[u8], output: &mut [u8]) -> usize
    requires { (8 ≤ length text.now) × (length text.now ≤ length output.old) }
    ensures { (result ≡ length text.now) × (output.new ≡ over text.now output.old) }
{
    let last = text.len() - 8;
    for k in 0..last.div_ceil(8) {
        put_eight(&text[8 * k..], &mut output[8 * k..]);
    }
    put_eight(&text[last..], &mut output[last..]);
    text.len()
}

// Copies a text of eight bytes or more as `put` does, but quicker if it has at most 64.
pub fn put_short(text: &[u8], output: &mut [u8]) -> usize
    requires { (8 ≤ length text.now) × (length text.now ≤ length output.old) }
    ensures { (result ≡ length text.now) × (output.new ≡ over text.now output.old) }
{
    if 64 < text.len() {
        return put(text, output);
    }
    put_eights(text, output)
}

// Copies a text of any length to the start of `output`, leaves the bytes after it as they were, and returns its length. Short ones are quicker than by `put`.
pub fn put_run(text: &[u8], output: &mut [u8]) -> usize
    requires { length text.now ≤ length output.old }
    ensures { (result ≡ length text.now) × (output.new ≡ over text.now output.old) }
{
    if text.len() < 8 {
        return put(text, output);
    }
    put_short(text, output)
}

// Returns the end of the part of at most `step` bytes that starts at `at`, before `end`.
pub fn clip(at: usize, end: usize, step: usize) -> usize
    requires { (at < end) × (0 < step) }
    ensures { (at < result) × (result ≤ end) × (result ≤ at + step) }
{
    at + step.min(end - at)
}

// Reports whether a byte is from `lo` to `hi`. It has no branch, so that a loop over it compiles to vector code.
pub fn is_within(lo: u8, hi: u8, b: u8) -> bool
    ensures { result ≡ inside (lo, hi) b }
{
    (lo <= b) & (b <= hi)
}

// Reports whether a byte is an ASCII letter or digit.
pub fn is_letter_or_digit(b: u8) -> bool
    ensures { result ≡ letter_or_digit b }
{
    is_within(b'0', b'9', b) | is_within(b'A', b'Z', b) | is_within(b'a', b'z', b)
}

// Returns `weight` if the byte is the key, else 0.
pub fn when(b: u8, key: u8, weight: u8) -> u8
    ensures { (result ≡ cond (eqb b key) weight 0) × (result ≤ weight) }
{
    if b == key { weight } else { 0 }
}

// Returns the upper-case hex digit of a value.
pub fn hex_digit(n: u8) -> u8
    requires { n < 16 }
    ensures { (result ≡ hex_digit n) × (result < 128) }
{
    if n < 10 { b'0' + n } else { b'A' + (n - 10) }
}

// Returns a byte 32 lower if it is `a` or above, so that lower-case letters become upper-case ones.
fn to_upper(byte: u8) -> u8
    ensures { result ≡ upper_of byte }
{
    if b'a' <= byte { byte - 32 } else { byte }
}

// Returns the value of an upper-case letter that is a hex digit, 255 for any other byte. `A` is 55 + 10.
fn letter_value(byte: u8) -> u8
    ensures { result ≡ letter_of byte }
{
    if is_within(b'A', b'F', byte) {
        return byte - 55;
    }
    255
}

// Returns the value of a decimal digit or of an upper-case letter that is a hex digit, 255 for any other byte. It looks for a letter in any case, so that no
// branch has to guess.
fn upper_value(byte: u8) -> u8
    ensures { result ≡ value_with byte byte }
{
    let letter = letter_value(byte);
    if is_within(b'0', b'9', byte) {
        return byte - b'0';
    }
    letter
}

// Returns a value that is below 16, None for any other.
fn of_sixteen(value: u8) -> Option<u8>
    ensures { result ≡ of_sixteen value }
{
    if value < 16 { Some(value) } else { None }
}

// Returns the value of an upper-case hex digit, None for any other byte.
pub fn upper_digit_value(byte: u8) -> Option<u8>
    ensures value { result ≡ upper_digit byte }
    ensures small { IfSome result (λ n. n < 16) }
{
    of_sixteen(upper_value(byte))
}

// Returns the value of a hex digit of either letter case, None for any other byte. Most are decimal, which one branch tells; which letter it is takes none.
pub fn digit_value(byte: u8) -> Option<u8>
    ensures value { result ≡ found_as (hex_digit_at byte) }
    ensures decimal { under 10 result ≡ digit byte }
    ensures small { IfSome result (λ n. n < 16) }
{
    if is_within(b'0', b'9', byte) {
        return Some(byte - b'0');
    }
    of_sixteen(letter_value(to_upper(byte)))
}

// Returns 1 if a number is at least `least`, else 0.
pub fn reaches(number: u64, least: u64) -> usize
    ensures { (result ≡ cond (leb least number) 1 0) × (result ≤ 1) }
{
    usize::from(least <= number)
}
