// Finds the next replaced character. Stretches without one are skipped by counts over 32 bytes, which compile to vector code.
// Text and offset stand in each contract: each call goes on from another offset.
ghost use Rattle.std.specs.Prelude.{false, ◌≡◌, ◌≤◌, ◌<◌, length};
ghost use Rattle.rules.specs.Contexts.{string_of};
ghost use Rattle.rules.specs.declared.Context.TheVariants.{InHtml};
ghost use Rattle.base.specs.First.{Free, First};
ghost use Rattle.reader.specs.Replaced.{is_lead, in_set, Leads, Same, bit_of, bits_of, separator_lead, separator_word, is_whole, begins_at, member_at, replaced_at};

use rules::{Context, Html, Language, Quotes};

// The replaced characters of a context, by the bytes that start them: as a list, which tells of many bytes at once, and as a set, which is quicker for one.
// Each is written out, as one made from the other would take a loop in every call.
#[derive(Clone, Copy)]
pub struct Special {
    pub context: Context,
    pub leads: [u8; 8],
    pub set: [u64; 4],
    ghost listed: { Leads context (is_lead leads) },
    ghost kept: { Leads context (in_set set) },
}

impl Special {
    // Returns those of a context.
    pub fn of(c: Context) -> Special
        ensures { result.context ≡ c }
    {
        Special {
            context: c,
            leads: leads_of(c),
            set: set_of(c),
        }
    }

    // Returns the first offset from `from` on of a replaced character, or the text's length.
    pub fn next_replaced(&self, text: &[u8], from: usize) -> usize
        requires { from ≤ length text.now }
        ensures { First (replaced_at self.now.leads text.now) (length text.now) from result }
    {
        next_replaced(&self.leads, &self.set, text, from)
    }
}

// Returns the bytes that start a replaced character in an HTML context: the first and the last of a range, five more bytes (some of them twice), and
// 1 if every ASCII byte but letters and digits is one instead.
fn html_leads(h: Html) -> [u8; 8]
    ensures { Leads (InHtml h) (is_lead result) }
{
    match h {
        Html::TextMinimal => [b'&', b'&', b'<', b'<', b'<', b'<', b'<', 0],
        Html::Text => [b'&', b'&', b'<', b'>', b'>', b'>', b'>', 0],
        Html::DoubleQuoted => [b'&', b'&', b'<', b'>', b'"', b'"', b'"', 0],
        Html::SingleQuoted => [b'&', b'\'', b'<', b'>', b'>', b'>', b'>', 0],
        Html::Quoted => [b'&', b'\'', b'<', b'>', b'"', b'"', b'"', 0],
        Html::Safe => [b'&', b'\'', b'<', b'>', b'"', b'/', b'/', 0],
        Html::Unquoted => [b'&', b'&', b'<', b'<', b'<', b'<', b'<', 1],
    }
}

// Returns E2, which starts U+2028 and U+2029, for a script string. A style string does not replace these: for it, the backslash once more.
fn separator_lead(language: Language) -> u8
    ensures { result ≡ separator_lead language }
{
    match language {
        Language::Script => 0xE2,
        Language::Style => b'\\',
    }
}

// Returns the bytes that start a replaced character in a string, as `html_leads` does.
fn string_leads(language: Language, quotes: Quotes) -> [u8; 8]
    ensures { Leads (string_of language quotes) (is_lead result) }
{
    let last = separator_lead(language);
    match quotes {
        Quotes::Single => [0, 31, b'\'', b'\'', b'<', b'\\', last, 0],
        Quotes::Double => [0, 31, b'"', b'"', b'<', b'\\', last, 0],
        Quotes::Both => [0, 31, b'"', b'\'', b'<', b'\\', last, 0],
    }
}

// Returns the bytes that start a replaced character in any context, as `html_leads` does. JSON replaces the characters that a script string in double
// quotes does.
pub fn leads_of(c: Context) -> [u8; 8]
    ensures { Leads c (is_lead result) }
{
    match c {
        Context::InHtml(h) => html_leads(h),
        Context::InScript(quotes) => string_leads(Language::Script, quotes),
        Context::InStyle(quotes) => string_leads(Language::Style, quotes),
        Context::InJson => string_leads(Language::Script, Quotes::Double),
        Context::InAscii => html_leads(Html::Quoted),
    }
}

// Reports whether the byte starts a replaced character. Its only branch is the same for every byte, so that a loop over it compiles to vector code.
fn is_lead(leads: &[u8; 8], b: u8) -> bool
    ensures { result ≡ is_lead leads.now b }
{
    if leads[7] == 1 {
        return (b < 128) & !base::is_letter_or_digit(b);
    }
    let ranged = base::is_within(leads[0], leads[1], b);
    ranged | (b == leads[2]) | (b == leads[3]) | (b == leads[4]) | (b == leads[5]) | (b == leads[6])
}

// Returns the bit of a byte in its word of a set.
fn bit(b: u8) -> u64
    ensures { result ≡ bit_of b }
{
    1 << ((b % 64) as u32)
}

// Returns the bits of the bytes from `first` to `last`, which are in one word of a set.
fn bits(first: u8, last: u8) -> u64
    requires { bit_of first ≤ bit_of last }
    ensures { result ≡ bits_of first last }
{
    let top = bit(last);
    top - bit(first) + top
}

// Returns the bytes of `html_leads` as a set of 256 bits: words for the bytes 0 to 63, 64 to 127, 128 to 191, 192 to 255. The compiler folds each
// arm to a constant.
fn html_set(h: Html) -> [u64; 4]
    ensures { Leads (InHtml h) (in_set result) }
{
    match h {
        Html::TextMinimal => [bit(b'&') | bit(b'<'), 0, 0, 0],
        Html::Text => [bit(b'&') | bit(b'<') | bit(b'>'), 0, 0, 0],
        Html::DoubleQuoted => [bit(b'&') | bit(b'<') | bit(b'>') | bit(b'"'), 0, 0, 0],
        Html::SingleQuoted => [bit(b'&') | bit(b'<') | bit(b'>') | bit(b'\''), 0, 0, 0],
        Html::Quoted => [
            bit(b'&') | bit(b'<') | bit(b'>') | bit(b'"') | bit(b'\''),
            0,
            0,
            0,
        ],
        Html::Safe => [
            bit(b'&') | bit(b'<') | bit(b'>') | bit(b'"') | bit(b'\'') | bit(b'/'),
            0,
            0,
            0,
        ],
        Html::Unquoted => [
            bits(0, b'/') | bits(b':', b'?'),
            bit(b'@') | bits(b'[', b'`') | bits(b'{', 127),
            0,
            0,
        ],
    }
}

// Returns the word of a string's set for the bytes from 192 on: E2, which starts U+2028 and U+2029, for a script string.
fn separator_word(language: Language) -> u64
    ensures { result ≡ separator_word language }
{
    match language {
        Language::Script => bit(0xE2),
        Language::Style => 0,
    }
}

// Returns the bytes of `string_leads` as such a set.
fn string_set(language: Language, quotes: Quotes) -> [u64; 4]
    ensures { Leads (string_of language quotes) (in_set result) }
{
    let last = separator_word(language);
    match quotes {
        Quotes::Single => [bits(0, 31) | bit(b'\'') | bit(b'<'), bit(b'\\'), 0, last],
        Quotes::Double => [bits(0, 31) | bit(b'"') | bit(b'<'), bit(b'\\'), 0, last],
        Quotes::Both => [
            bits(0, 31) | bit(b'"') | bit(b'\'') | bit(b'<'),
            bit(b'\\'),
            0,
            last,
        ],
    }
}

// Returns the bytes of `leads_of` as such a set.
pub fn set_of(c: Context) -> [u64; 4]
    ensures { Leads c (in_set result) }
{
    match c {
        Context::InHtml(h) => html_set(h),
        Context::InScript(quotes) => string_set(Language::Script, quotes),
        Context::InStyle(quotes) => string_set(Language::Style, quotes),
        Context::InJson => string_set(Language::Script, Quotes::Double),
        Context::InAscii => html_set(Html::Quoted),
    }
}

// Reports whether the byte is in the set: quicker for one byte, as `is_lead` is for many at once.
pub fn is_in(set: &[u64; 4], b: u8) -> bool
    ensures { result ≡ in_set set.now b }
{
    let word = set[(b / 64) as usize];
    (word >> ((b % 64) as u32)) % 2 == 1
}

// Reports whether a byte of the part starts a replaced character. The loop has no early exit, so that it becomes vector code.
fn has_lead(leads: &[u8; 8], part: &[u8]) -> bool
    ensures { result ≡ false → Free (begins_at leads.now part.now) 0 (length part.now) }
{
    let mut hit = false;
    for b in part {
        hit |= is_lead(leads, *b);
    }
    hit
}

// Skips parts of 32 bytes without such a byte, from offset `from` on.
fn pass(leads: &[u8; 8], text: &[u8], from: usize) -> usize
    requires { from ≤ length text.now }
    ensures { (from ≤ result) × (result ≤ length text.now) × Free (begins_at leads.now text.now) from result }
{
    let mut i = from;
    // A cursor: the place where a part begins is what is returned, and an iterator of parts does not tell it.
    while i < text.len() {
        let e = base::clip(i, text.len(), 32);
        if has_lead(leads, &text[i..e]) {
            return i;
        }
        i = e;
    }
    i
}

// Returns the first offset from `from` on and before `end` of a byte of the set, or `end`, byte by byte.
fn walk(set: &[u64; 4], text: &[u8], from: usize, end: usize) -> usize
    requires { (from ≤ end) × (end ≤ length text.now) }
    ensures { First (member_at set.now text.now) end from result }
{
    for i in from..end {
        if is_in(set, text[i]) {
            return i;
        }
    }
    end
}

// Reports whether `rest` starts with another byte than E2, or with U+2028 or U+2029.
fn is_whole(rest: &[u8]) -> bool
    requires { 0 < length rest.now }
    ensures { result ≡ is_whole rest.now }
{
    if rest[0] != 0xE2 {
        return true;
    }
    if base::prefix::starts(b"\xE2\x80\xA8", rest) {
        return true;
    }
    base::prefix::starts(b"\xE2\x80\xA9", rest)
}

// Returns the first offset from `from` on of a byte that starts a replaced character, or the text's length. It is often among the next sixteen bytes,
// which are tested one by one; then parts are skipped, and the one that has it is walked.
fn find(leads: &[u8; 8], set: &[u64; 4], text: &[u8], from: usize) -> usize
    requires { Same leads.now set.now × (from ≤ length text.now) }
    ensures { First (begins_at leads.now text.now) (length text.now) from result }
{
    if from == text.len() {
        return from;
    }
    let near = base::clip(from, text.len(), 16);
    let i = walk(set, text, from, near);
    if i < near {
        return i;
    }
    walk(set, text, pass(leads, text, near), text.len())
}

// Returns the same for any list and set that tell of the same bytes.
pub fn next_replaced(leads: &[u8; 8], set: &[u64; 4], text: &[u8], from: usize) -> usize
    requires { Same leads.now set.now × (from ≤ length text.now) }
    ensures { First (replaced_at leads.now text.now) (length text.now) from result }
{
    let mut i = find(leads, set, text, from);
    // A cursor: each turn goes on after an E2 that starts another character.
    while i < text.len() {
        if is_whole(&text[i..]) {
            return i;
        }
        i = find(leads, set, text, i + 1);
    }
    i
}
