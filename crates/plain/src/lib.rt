// Plain texts, which no operation changes, as most names are: they are found many bytes at a time.
// The size of a block is a const parameter; that the block has it stands in each contract, as a slice's length is no type.
#![tactic(auto)]

pub mod look;

ghost use Rattle.std.specs.Prelude.{true, false, not, ◌≡◌, ◌≤◌, ◌<◌, length};
ghost use Rattle.base.specs.First.{Free};
ghost use Rattle.plain.specs.Plain.{plain, special_at, far_of};

// The sizes of the blocks in which a text is tested: the largest that fits into it, since fewer blocks are fewer branches. LARGE is four vectors.
const TINY: usize = 4;

const SMALL: usize = 8;

const MEDIUM: usize = 16;

const LARGE: usize = 64;

// Reports whether a byte is not plain; in unquoted attributes only letters and digits are. Its one branch is the same for every byte, so that many
// bytes are tested at once.
fn is_special(unquoted: bool, b: u8) -> bool
    ensures { result ≡ not (plain unquoted b) }
{
    if unquoted {
        return !base::is_letter_or_digit(b);
    }
    !base::is_within(32, 127, b)
        | (b == b'"')
        | (b == b'&')
        | (b == b'\'')
        | (b == b'/')
        | (b == b'<')
        | (b == b'>')
        | (b == b'\\')
}

// Reports whether a byte of a block is not plain. The loop has no early exit, so that it becomes vector code.
fn any_special<const SIZE: usize>(unquoted: bool, block: &[u8]) -> bool
    requires { length block.now ≡ SIZE }
    ensures { result ≡ false → Free (special_at unquoted block.now) 0 (length block.now) }
{
    let mut hit = false;
    for b in block {
        hit |= is_special(unquoted, *b);
    }
    hit
}

// Returns the least xor of a byte with each byte that is not plain, whose highest bit is set, and of 31 for a control: above 128 only for a plain byte.
fn far(b: u8) -> u8
    ensures { result ≡ far_of b }
{
    let quotes = (b ^ 0xA2).min(b ^ 0xA6).min((b ^ 0xA7).min(b ^ 0xAF));
    quotes.min(
        (b ^ 0xBC)
            .min(b ^ 0xBE)
            .min((b ^ 0xDC).min((b | 31) ^ 0x9F)),
    )
}

// Returns the least of these for the bytes of a block. It is quicker than a test of each byte, for one vector or more.
fn least<const SIZE: usize>(block: &[u8]) -> u8
    requires { length block.now ≡ SIZE }
    ensures { 128 < result → Free (special_at false block.now) 0 (length block.now) }
{
    let mut m: u8 = 255;
    for b in block {
        m = m.min(far(*b));
    }
    m
}

// Reports whether a byte of a block is not plain. The size is a constant, so that each size gets loops of its own without a rest.
fn has_special<const SIZE: usize>(unquoted: bool, block: &[u8]) -> bool
    requires { length block.now ≡ SIZE }
    ensures { result ≡ false → Free (special_at unquoted block.now) 0 (length block.now) }
{
    if unquoted || SIZE < MEDIUM {
        return any_special::<SIZE>(unquoted, block);
    }
    least::<SIZE>(block) <= 128
}

// Reports whether every byte of a text is plain, by blocks of SIZE bytes; the last block may overlap the one before.
fn all_plain<const SIZE: usize>(unquoted: bool, text: &[u8]) -> bool
    requires { (0 < SIZE) × (SIZE ≤ length text.now) }
    ensures { result ≡ true → Free (special_at unquoted text.now) 0 (length text.now) }
{
    let last = text.len() - SIZE;
    let mut done: usize = 0;
    // A cursor: the last turn may move by less than a block.
    while done < text.len() {
        let at = done.min(last);
        if has_special::<SIZE>(unquoted, &text[at..at + SIZE]) {
            return false;
        }
        done = at + SIZE;
    }
    true
}

// Returns the length of the longest text that is tested. For unquoted attributes it is the limit of every call; else it is short, since every
// other operation has a pass of its own that is quicker for long texts.
fn longest(unquoted: bool) -> usize
    ensures { result ≤ 65536 }
{
    if unquoted { rules::TEXT_LIMIT } else { LARGE }
}

// Reports whether a text of four bytes or more is plain; false also for a text that is not tested. The longer it is, the larger the blocks.
pub fn is_plain(unquoted: bool, text: &[u8]) -> bool
    ensures { result ≡ true → (length text.now ≤ 65536) × Free (special_at unquoted text.now) 0 (length text.now) }
{
    if longest(unquoted) < text.len() {
        return false;
    }
    if LARGE < text.len() {
        return all_plain::<LARGE>(unquoted, text);
    }
    if MEDIUM <= text.len() {
        return all_plain::<MEDIUM>(unquoted, text);
    }
    if SMALL <= text.len() {
        return all_plain::<SMALL>(unquoted, text);
    }
    if TINY <= text.len() {
        return all_plain::<TINY>(unquoted, text);
    }
    false
}
