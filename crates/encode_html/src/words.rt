// The encoding of a byte as one word: up to six bytes, the first the lowest, and their number in the highest byte.
// html-escape's `write_html_entity` and `write_hex`.
ghost use Rattle.std.specs.Prelude.{◌≡◌, cond, eqb};
ghost use Rattle.rules.specs.Tables.{value, reference};
ghost use Rattle.rules.specs.declared.Html.TheVariants.{Unquoted};
ghost use Rattle.encode_html.specs.Written.{written};
ghost use Rattle.base.specs.Words.{word_of};
ghost use Rattle.encode_html.specs.Words.{AreWordsOf, Table};

use base::words::plain;
use rules::Html;

// `&amp;`
const AMP: u64 = 0x0500_003B_706D_6126;
// `&lt;`
const LT: u64 = 0x0400_0000_3B74_6C26;
// `&gt;`
const GT: u64 = 0x0400_0000_3B74_6726;
// `&quot;`
const QUOT: u64 = 0x0600_3B74_6F75_7126;
// `&#x27;`
const APOSTROPHE: u64 = 0x0600_3B37_3278_2326;
// `&#x2F;`
const SOLIDUS: u64 = 0x0600_3B46_3278_2326;
// `&#x`, room for two digits, `;`
const HEX: u64 = 0x0600_3B00_0078_2326;
// `>`
const PLAIN_GT: u64 = 0x0100_0000_0000_003E;
// `"`
const PLAIN_QUOT: u64 = 0x0100_0000_0000_0022;
// `'`
const PLAIN_APOSTROPHE: u64 = 0x0100_0000_0000_0027;
// `/`
const PLAIN_SOLIDUS: u64 = 0x0100_0000_0000_002F;

// A context, whether it replaces nothing but `&`, `<` and `>`, whether it replaces all punctuation, and the words of `>`, `"`, `'` and `/`.
#[derive(Clone, Copy)]
pub struct Words {
    pub html: Html,
    pub text: bool,
    pub unquoted: bool,
    pub gt: u64,
    pub double: u64,
    pub single: u64,
    pub slash: u64,
    ghost right: { AreWordsOf html text unquoted gt double single slash },
}

impl Words {
    // Makes the words of a context from its fields.
    fn new(
        html: Html,
        text: bool,
        unquoted: bool,
        gt: u64,
        double: u64,
        single: u64,
        slash: u64,
    ) -> Self
        requires { AreWordsOf html text unquoted gt double single slash }
        ensures { result.html ≡ html }
    {
        Self {
            html,
            text,
            unquoted,
            gt,
            double,
            single,
            slash,
        }
    }
}

// Returns the words of a context: of the four bytes that not every context replaces.
pub fn words_of(h: Html) -> Words
    ensures { result.html ≡ h }
{
    match h {
        Html::TextMinimal => Words::new(
            h,
            true,
            false,
            PLAIN_GT,
            PLAIN_QUOT,
            PLAIN_APOSTROPHE,
            PLAIN_SOLIDUS,
        ),
        Html::Text => Words::new(
            h,
            true,
            false,
            GT,
            PLAIN_QUOT,
            PLAIN_APOSTROPHE,
            PLAIN_SOLIDUS,
        ),
        Html::DoubleQuoted => Words::new(
            h,
            false,
            false,
            GT,
            QUOT,
            PLAIN_APOSTROPHE,
            PLAIN_SOLIDUS,
        ),
        Html::SingleQuoted => Words::new(
            h,
            false,
            false,
            GT,
            PLAIN_QUOT,
            APOSTROPHE,
            PLAIN_SOLIDUS,
        ),
        Html::Quoted => Words::new(h, false, false, GT, QUOT, APOSTROPHE, PLAIN_SOLIDUS),
        Html::Safe => Words::new(h, false, false, GT, QUOT, APOSTROPHE, SOLIDUS),
        Html::Unquoted => Words::new(h, false, true, GT, QUOT, APOSTROPHE, SOLIDUS),
    }
}

// Returns the word of a byte that is written as `&#xHH;`.
fn hex(b: u8) -> u64
    ensures { result ≡ word_of (value (reference b)) }
{
    let first = base::hex_digit(b / 16) as u64;
    let second = base::hex_digit(b % 16) as u64;
    HEX + first * 0x100_0000 + second * 0x1_0000_0000
}

// Returns `word` if the byte is the key, else `other`.
fn select(b: u8, key: u8, word: u64, other: u64) -> u64
    ensures { result ≡ cond (eqb b key) word other }
{
    if b == key { word } else { other }
}

// Returns the word of a byte in an unquoted attribute.
fn word_unquoted(b: u8) -> u64
    ensures { result ≡ word_of (written Unquoted b) }
{
    if 127 < b || base::is_letter_or_digit(b) {
        return plain(b);
    }
    let x = select(b, b'"', QUOT, hex(b));
    let x = select(b, b'>', GT, x);
    let x = select(b, b'<', LT, x);
    select(b, b'&', AMP, x)
}

// Returns the word of a byte.
pub fn word(w: Words, b: u8) -> u64
    ensures { result ≡ word_of (written w.html b) }
{
    if w.unquoted {
        return word_unquoted(b);
    }
    let x = select(b, b'>', w.gt, plain(b));
    let x = select(b, b'<', LT, x);
    let x = select(b, b'&', AMP, x);
    if w.text {
        return x;
    }
    let x = select(b, b'/', w.slash, x);
    let x = select(b, b'\'', w.single, x);
    select(b, b'"', w.double, x)
}

// Returns the word of every byte. A call on a long text makes them once and lends them to its loops, in which a word is then one load.
pub fn table_of(w: Words) -> [u64; 256]
    ensures { Table w.html result }
{
    let mut table: [u64; 256] = [0x0100_0000_0000_0000; 256];
    for b in 0..256 {
        table[b] = word(w, b as u8);
    }
    table
}
