// The UTF-8 check of RFC 3629. A text is read in blocks: a block that is all ASCII, or in which each byte may follow the three before it (the usual
// range check over a window of four bytes), is passed as a whole; the rest is read character by character. The loops over blocks have no early exit
// and no branch on a byte, so that they become vector code.
// The least length of a block stands in each contract: blocks are slices, and the first three bytes of one are read by number.
#![tactic(auto)]

ghost use Rattle.std.specs.Prelude.{MatchOption, true, cond, ◌≡◌, ℕ, suc, ◌+◌, ◌-◌, ◌≤◌, ◌<◌, length, take, drop, get_or};
ghost use Rattle.rules.specs.Bytes.{fits, inside};
ghost use Rattle.rules.specs.Moves.{takes};
ghost use Rattle.rules.specs.Utf8.{IsText, char_step, valid_to, is_cut};
ghost use Rattle.utf8.specs.Check.{is_start, onward, tails_of, is_open, fits_after, heads_fit, AllFit, pending_in};

// The longest block that is tested for being ASCII.
const ASCII_BLOCK: usize = 128;

// The longest block that is tested by windows: the first three bytes one by one, and seven times 32. The count of bytes fits a byte.
const WINDOWS_BLOCK: usize = 227;

// The shortest block that is tested by windows: three bytes and 32. A shorter one is read faster character by character.
const WINDOWS_LEAST: usize = 35;

// Reports whether a byte can start a character.
fn is_start(d: u8) -> bool
    ensures { result ≡ is_start d }
{
    (d < 0x80) | ((0xC2 <= d) & (d <= 0xF4))
}

// Returns the lowest byte that may follow the byte `c` of an unfinished character. E0 and F0 exclude overlong forms.
fn low(c: u8) -> u8
    ensures { result ≡ (onward c).0 }
{
    match c {
        0xE0 => 0xA0,
        0xF0 => 0x90,
        _ => 0x80,
    }
}

// Returns the highest. ED excludes surrogates, F4 excludes what is above U+10FFFF.
fn high(c: u8) -> u8
    ensures { result ≡ (onward c).1 }
{
    match c {
        0xED => 0x9F,
        0xF4 => 0x8F,
        _ => 0xBF,
    }
}

// Reports whether the byte `d` may follow the byte `c` of an unfinished character.
fn goes_on(c: u8, d: u8) -> bool
    ensures { result ≡ inside (onward c) d }
{
    base::is_within(low(c), high(c), d)
}

// Returns the length of a character by its first byte, which is not ASCII: the number of one-bits that the byte starts with.
fn lead_ones(a: u8) -> usize
    requires { (194 ≤ a) × (a ≤ 244) }
    ensures { (result ≡ suc (length (tails_of a))) × (2 ≤ result) × (result ≤ 4) }
{
    u8::leading_zeros(!a) as usize
}

// Reports whether the first `n` bytes of `rest`, whose first byte starts a character of at least as many, can be its first bytes.
fn has_tails(rest: &[u8], n: usize) -> bool
    requires { (128 ≤ get_or rest.now 0 0) × (n ≤ suc (length (tails_of (get_or rest.now 0 0)))) × (2 ≤ n) × (n ≤ 4) × (n ≤ length rest.now) }
    ensures { result ≡ fits inside (take (n - 1) (tails_of (get_or rest.now 0 0))) (drop 1 rest.now) }
{
    let two = goes_on(rest[0], rest[1]);
    if n == 2 {
        return two;
    }
    let three = two & base::is_within(0x80, 0xBF, rest[2]);
    if n == 3 {
        return three;
    }
    three & base::is_within(0x80, 0xBF, rest[3])
}

// Returns the length of the character that `rest` begins with, or `None` if it begins with none.
fn sequence(rest: &[u8]) -> Option<usize>
    ensures { MatchOption result (length (takes (char_step 0 rest.now)) ≡ 0) (λ n. (n ≡ length (takes (char_step 0 rest.now))) × (0 < n) × (n ≤ length rest.now)) }
{
    if rest.is_empty() {
        return None;
    }
    let a = rest[0];
    if a < 0x80 {
        return Some(1);
    }
    if !is_start(a) {
        return None;
    }
    let n = lead_ones(a);
    if rest.len() < n {
        return None;
    }
    if has_tails(rest, n) {
        return Some(n);
    }
    None
}

// Reports whether the bytes `a`, `b` and `c` end within a character.
fn is_open(a: u8, b: u8, c: u8) -> bool
    ensures { result ≡ is_open a b c }
{
    (0xC0 <= c) | (0xE0 <= b) | (0xF0 <= a)
}

// Reports whether the byte `d` may follow them: as a continuation of an unfinished character, else as the start of one.
fn is_fit(a: u8, b: u8, c: u8, d: u8) -> bool
    ensures { result ≡ fits_after a b c d }
{
    if is_open(a, b, c) {
        return goes_on(c, d);
    }
    is_start(d)
}

// Reports whether the first three bytes of a block may start a text.
fn heads_fit(part: &[u8]) -> bool
    requires { 3 ≤ length part.now }
    ensures { result ≡ heads_fit part.now }
{
    is_fit(0, 0, 0, part[0]) & is_fit(0, 0, part[0], part[1]) & is_fit(0, part[0], part[1], part[2])
}

// Counts the bytes of a block that may not follow the three before them; 1 if that is so of one of its first three.
fn misfits(part: &[u8]) -> u8
    requires { (3 ≤ length part.now) × (length part.now ≤ 227) }
    ensures { result ≡ 0 → AllFit 0 0 0 part.now }
{
    if !heads_fit(part) {
        return 1;
    }
    let mut n: u8 = 0;
    for four in part.windows(4) {
        if !is_fit(four[0], four[1], four[2], four[3]) {
            n += 1;
        }
    }
    n
}

// Returns how many bytes at the end of a block belong to an unfinished character.
fn unfinished(part: &[u8]) -> usize
    requires { 3 ≤ length part.now }
    ensures { (result ≡ pending_in 0 0 0 part.now) × (result ≤ 3) }
{
    let n = part.len();
    if 0xC0 <= part[n - 1] {
        return 1;
    }
    if 0xE0 <= part[n - 2] {
        return 2;
    }
    if 0xF0 <= part[n - 3] {
        return 3;
    }
    0
}

// Returns the length of a valid prefix of a block: all but an unfinished character at its end if every window is right, else 0.
fn fitting(part: &[u8]) -> usize
    requires { (3 ≤ length part.now) × (length part.now ≤ 227) }
    ensures { (result ≤ length part.now) × IsText (take result part.now) }
{
    if misfits(part) == 0 {
        return part.len() - unfinished(part);
    }
    0
}

// Reports whether every byte of a block is ASCII, by its greatest byte. The slice's own test takes a quarter more instructions on a block of this length.
fn is_ascii(part: &[u8]) -> bool
    ensures { result ≡ true → (k : ℕ) → k < length part.now → get_or part.now k 0 < 128 }
{
    let mut greatest: u8 = 0;
    for b in part {
        greatest = greatest.max(*b);
    }
    greatest < 0x80
}

// Returns a place up to which the text is valid, by the block at `i`: its end if it is ASCII, else the end of its last whole character if every
// window is right, else `i`.
fn ahead(text: &[u8], i: usize) -> usize
    requires { (i < length text.now) × IsText (take i text.now) }
    ensures { (i ≤ result) × (result ≤ length text.now) × IsText (take result text.now) }
{
    let e = base::clip(i, text.len(), ASCII_BLOCK);
    if is_ascii(&text[i..e]) {
        return e;
    }
    let f = base::clip(i, text.len(), WINDOWS_BLOCK);
    if f - i < WINDOWS_LEAST {
        return i;
    }
    i + fitting(&text[i..f])
}

// Returns the length of the longest valid prefix, given that the first `i` bytes are valid: read character by character.
fn plain_to(text: &[u8], i: usize) -> usize
    requires { (i ≤ length text.now) × IsText (take i text.now) }
    ensures { (result ≡ valid_to text.now) × (result ≤ length text.now) }
{
    let mut k = i;
    // A cursor: each turn moves by the length of the character that it read.
    while let Some(n) = sequence(&text[k..]) {
        k += n;
    }
    k
}

// Returns the length of the longest valid prefix: by blocks as far as they go, then character by character.
pub fn valid_to(text: &[u8]) -> usize
    ensures { (result ≡ valid_to text.now) × (result ≤ length text.now) }
{
    let mut i: usize = 0;
    // A cursor: each turn moves to where the block that was just tested is valid.
    while i < text.len() {
        let n = ahead(text, i);
        if n == i {
            return plain_to(text, i);
        }
        i = n;
    }
    i
}

// Reports whether `rest`, the bytes after the longest valid prefix of a text, is the start of a character that more bytes could complete.
pub fn is_cut(rest: &[u8]) -> bool
    requires { 0 < length rest.now }
    ensures { result ≡ is_cut rest.now }
{
    let a = rest[0];
    if a < 0x80 {
        return false;
    }
    if !is_start(a) {
        return false;
    }
    if lead_ones(a) <= rest.len() {
        return false;
    }
    if rest.len() == 1 {
        return true;
    }
    has_tails(rest, rest.len())
}

// Returns the status of a text that is not valid UTF-8, by `rest`, the bytes after its longest valid prefix: CUT_SHORT or NOT_UTF8.
// It is a number since the answer record, which C reads, holds it.
pub fn status(rest: &[u8]) -> usize
    requires { 0 < length rest.now }
    ensures { result ≡ cond (is_cut rest.now) 7 2 }
{
    if is_cut(rest) {
        return rules::CUT_SHORT;
    }
    rules::NOT_UTF8
}
