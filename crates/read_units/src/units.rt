// The units of the HTML contexts, compared as numbers of up to six bytes, the first lowest. What is read off a unit has no branch, as no branch could guess
// which unit comes next.
ghost use Rattle.std.specs.Prelude.{true, ◌≡◌, [], ◌∷◌, ◌+◌, ◌≤◌, length, get_or, drop};
ghost use Rattle.rules.specs.Bytes.{over};
ghost use Rattle.read_units.specs.Units.{lowest, words_of, is_word, length_of, value_of, char_of, char_at, UnitAt, step_length, step_char, step_at};

use rules::Html;

// The numbers of `&lt;`, `&gt;`, `&amp;`, `&quot;`, `&#x27;` and `&#x2F;`.
const LT: u64 = 0x3B74_6C26;

const GT: u64 = 0x3B74_6726;

const AMP: u64 = 0x3B_706D_6126;

const QUOT: u64 = 0x3B74_6F75_7126;

const APOSTROPHE: u64 = 0x3B37_3278_2326;

const SOLIDUS: u64 = 0x3B46_3278_2326;

// A number that six bytes never have.
const NONE: u64 = 0x1_0000_0000_0000;

// Returns the numbers of the context's units of four bytes (but `&lt;`) and of six bytes; for the unquoted attribute those that have names.
pub fn words_of(h: Html) -> [u64; 4]
    ensures { result ≡ words_of h }
{
    match h {
        Html::TextMinimal => [LT, NONE, NONE, NONE],
        Html::Text => [GT, NONE, NONE, NONE],
        Html::DoubleQuoted => [GT, QUOT, NONE, NONE],
        Html::SingleQuoted => [GT, NONE, APOSTROPHE, NONE],
        Html::Quoted => [GT, QUOT, APOSTROPHE, NONE],
        Html::Safe => [GT, QUOT, APOSTROPHE, SOLIDUS],
        Html::Unquoted => [GT, QUOT, NONE, NONE],
    }
}

// Returns the byte at an offset, or 0 past the end.
fn byte_at(text: &[u8], at: usize) -> u8
    ensures { result ≡ get_or text.now at 0 }
{
    text.get(at).copied().unwrap_or(0)
}

// Returns the six bytes at an offset as a number; past the end they are 0.
pub fn six(text: &[u8], at: usize) -> u64
    requires { at ≤ length text.now }
    ensures { result ≡ lowest 6 (drop at text.now) }
{
    if text.len() - at < 6 {
        return u64::from_le_bytes([
            byte_at(text, at),
            byte_at(text, at + 1),
            byte_at(text, at + 2),
            byte_at(text, at + 3),
            byte_at(text, at + 4),
            byte_at(text, at + 5),
            0,
            0,
        ]);
    }
    u64::from_le_bytes([
        text[at],
        text[at + 1],
        text[at + 2],
        text[at + 3],
        text[at + 4],
        text[at + 5],
        0,
        0,
    ])
}

// Whether six bytes start with a unit, given the numbers of the context's units.
pub fn is_word(words: &[u64; 4], six: u64) -> bool
    ensures { result ≡ is_word words.now six }
{
    let four = six % 0x1_0000_0000;
    (four == LT)
        | (four == words[0])
        | (six % 0x100_0000_0000 == AMP)
        | (six == words[1])
        | (six == words[2])
        | (six == words[3])
}

// Whether a unit of the context is at an offset, given the numbers of its units.
pub fn is_unit(h: Html, words: &[u64; 4], text: &[u8], at: usize) -> bool
    requires { (words.now ≡ words_of h) × (at ≤ length text.now) }
    ensures { result ≡ true → UnitAt h text.now at }
{
    is_word(words, six(text, at))
}

// Returns the length of a unit by its second byte: four bytes, and those by which a longer one is longer.
pub fn length_of(second: u8) -> usize
    ensures { (result ≡ length_of second) × (result ≤ 9) }
{
    let more = base::when(second, b'a', 1)
        + base::when(second, b'q', 2)
        + base::when(second, b'#', 2);
    4 + usize::from(more)
}

// Returns the number of two upper-case hex digits that is below 128. Of any other two bytes it is some number.
pub fn value_of(fourth: u8, fifth: u8) -> u8
    ensures { (result ≡ value_of fourth fifth) × (result ≤ 154) }
{
    fourth % 8 * 16 + fifth % 16 + fifth / 64 * 9
}

// Returns the character of a unit by its second byte, and of `&#xHH;` by its digits.
fn char_of(second: u8, fourth: u8, fifth: u8) -> u8
    ensures { result ≡ char_of second fourth fifth }
{
    let value = value_of(fourth, fifth);
    let name = base::when(second, b'l', b'<')
        + base::when(second, b'g', b'>')
        + base::when(second, b'a', b'&')
        + base::when(second, b'q', b'"');
    if second == b'#' { value } else { name }
}

// Writes the character of the unit at an offset to the start of `output`, leaves the bytes after it as they were, and returns its length, 1.
pub fn put_char(h: Html, text: &[u8], at: usize, output: &mut [u8]) -> usize
    requires { UnitAt h text.now at × (1 ≤ length output.old) }
    ensures { (result ≡ 1) × (output.new ≡ over (char_at text.now at ∷ []) output.old) }
{
    let character = char_of(text[at + 1], text[at + 3], byte_at(text, at + 4));
    base::put(&[character], output)
}

// Returns the length of a unit by its first two bytes, and 1 where the first is not `&`.
pub fn step_of(first: u8, second: u8) -> usize
    ensures { (result ≡ step_length first second) × (1 ≤ result) × (result ≤ 9) }
{
    let n = length_of(second);
    if first == b'&' { n } else { 1 }
}

// Returns the character of a unit, and the byte itself where it is not `&`.
fn step_char(first: u8, second: u8, fourth: u8, fifth: u8) -> u8
    ensures { result ≡ step_char first second fourth fifth }
{
    let character = char_of(second, fourth, fifth);
    if first == b'&' { character } else { first }
}

// Writes what the byte or the unit at an offset stands for, as `put_char` does. It has no branch.
pub fn put_step(text: &[u8], at: usize, output: &mut [u8]) -> usize
    requires { (at + 5 ≤ length text.now) × (1 ≤ length output.old) }
    ensures { (result ≡ 1) × (output.new ≡ over (step_at text.now at ∷ []) output.old) }
{
    let character = step_char(text[at], text[at + 1], text[at + 3], text[at + 4]);
    base::put(&[character], output)
}
