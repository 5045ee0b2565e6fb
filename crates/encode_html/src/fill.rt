// Writes the encoding of a text by words. Each word is stored whole, so that up to seven bytes past what counts of it are overwritten, and then
// overwritten again by the next word; only the last bytes of a text are written exactly.
// The room that a text needs stands in each contract: text and output are cut anew for each part.
// A table of words stands there with its context: it is an array on the stack of `write_long`, lent to two steps.
ghost use Rattle.std.specs.Prelude.{false, ◌≡◌, ℕ, ◌+◌, ◌≤◌, ◌<◌, length};
ghost use Rattle.rules.specs.Bytes.{over};
ghost use Rattle.rules.specs.Operations.{encode_of};
ghost use Rattle.rules.specs.declared.Context.TheVariants.{InHtml};
ghost use Rattle.plain.specs.Plain.{unquoted};
ghost use Rattle.encode_html.specs.Written.{written};
ghost use Rattle.encode_html.specs.Keys.{keys_of};
ghost use Rattle.base.specs.Words.{word_of, Spills};
ghost use Rattle.encode_html.specs.Words.{Table};

use super::cold::least;
use super::gains::gains_of;
use super::look::{Keys, keys_of};
use super::words::{Words, table_of, word};
use rules::Html;

// Bytes that are copied together if none is replaced: one vector, and few enough for most parts of a text to have nothing to replace.
const PART: usize = 16;

// A text above this length is written by a table of the words of all bytes, which takes longer to make than it saves on a shorter one.
const LONG: usize = 256;

// Writes the encoding of a byte, given its word.
fn write_byte(h: Html, b: u8, word: u64, output: &mut [u8]) -> usize
    requires { (word ≡ word_of (written h b)) × (length (written h b) + 7 ≤ length output.old) }
    ensures { (result ≡ length (written h b)) × Spills 7 (written h b) output.old output.new }
{
    base::words::store(word, output)
}

// Writes the encoding of a text byte by byte, given what tells the word of a byte.
fn write_each<F: Fn(u8) -> u64>(h: Html, word: F, text: &[u8], output: &mut [u8]) -> usize
    requires callable { F.IsAlwaysCallable word }
    requires words { (b x : ℕ) → b < 256 → F.post word b x → x ≡ word_of (written h b) }
    requires text_in_bounds { length (encode_of (InHtml h) text.now) + 7 ≤ length output.old }
    ensures value { result ≡ length (encode_of (InHtml h) text.now) }
    ensures spills { Spills 7 (encode_of (InHtml h) text.now) output.old output.new }
{
    let mut at: usize = 0;
    for b in text {
        at += write_byte(h, *b, word(*b), &mut output[at..]);
    }
    at
}

// Writes the encoding of a short text.
fn write_bytes(w: Words, text: &[u8], output: &mut [u8]) -> usize
    requires text_in_bounds { length (encode_of (InHtml w.html) text.now) + 7 ≤ length output.old }
    ensures value { result ≡ length (encode_of (InHtml w.html) text.now) }
    ensures spills { Spills 7 (encode_of (InHtml w.html) text.now) output.old output.new }
{
    write_each(w.html, |b| word(w, b), text, output)
}

// Writes the encoding of a text by the table of the words of all bytes, at the same speed whatever is replaced.
fn write_words(h: Html, table: &[u64; 256], text: &[u8], output: &mut [u8]) -> usize
    requires table { Table h table.now }
    requires text_in_bounds { length (encode_of (InHtml h) text.now) + 7 ≤ length output.old }
    ensures value { result ≡ length (encode_of (InHtml h) text.now) }
    ensures spills { Spills 7 (encode_of (InHtml h) text.now) output.old output.new }
{
    write_each(h, |b| table[usize::from(b)], text, output)
}

// Writes the encoding of a part of a text. Sixteen bytes are copied if none of them is replaced.
fn write_part(h: Html, k: Keys, table: &[u64; 256], part: &[u8], output: &mut [u8]) -> usize
    requires h_value { (unquoted h ≡ false) × (k ≡ keys_of h) × Table h table.now }
    requires part_in_bounds { length (encode_of (InHtml h) part.now) + 7 ≤ length output.old }
    ensures value { result ≡ length (encode_of (InHtml h) part.now) }
    ensures spills { Spills 7 (encode_of (InHtml h) part.now) output.old output.new }
{
    if part.len() == PART && 0 < least(k, part) {
        return base::put_short(part, output);
    }
    write_words(h, table, part, output)
}

// Writes the encoding of a text part by part, which is quick where most parts are copied.
fn write_parts(h: Html, k: Keys, table: &[u64; 256], text: &[u8], output: &mut [u8]) -> usize
    requires h_value { (unquoted h ≡ false) × (k ≡ keys_of h) × Table h table.now }
    requires text_in_bounds { length (encode_of (InHtml h) text.now) + 7 ≤ length output.old }
    ensures value { result ≡ length (encode_of (InHtml h) text.now) }
    ensures spills { Spills 7 (encode_of (InHtml h) text.now) output.old output.new }
{
    let mut at: usize = 0;
    for part in text.chunks(PART) {
        at += write_part(h, k, table, part, &mut output[at..]);
    }
    at
}

// Writes the encoding of a text that grows by about `grow` bytes by the table: byte by byte if that is an eighth of it or more, and in an unquoted
// attribute, else part by part.
fn write_long(w: Words, text: &[u8], grow: usize, output: &mut [u8]) -> usize
    requires text_in_bounds { length (encode_of (InHtml w.html) text.now) + 7 ≤ length output.old }
    ensures value { result ≡ length (encode_of (InHtml w.html) text.now) }
    ensures spills { Spills 7 (encode_of (InHtml w.html) text.now) output.old output.new }
{
    let table = table_of(w);
    if w.unquoted || text.len() / 8 <= grow {
        return write_words(w.html, &table, text, output);
    }
    write_parts(w.html, keys_of(gains_of(w)), &table, text, output)
}

// Writes the encoding of a text that grows by about `grow` bytes.
pub fn write_most(w: Words, text: &[u8], grow: usize, output: &mut [u8]) -> usize
    requires text_in_bounds { length (encode_of (InHtml w.html) text.now) + 7 ≤ length output.old }
    ensures value { result ≡ length (encode_of (InHtml w.html) text.now) }
    ensures spills { Spills 7 (encode_of (InHtml w.html) text.now) output.old output.new }
{
    if LONG < text.len() {
        return write_long(w, text, grow, output);
    }
    write_bytes(w, text, output)
}

// Writes the encoding of a short text through a buffer that takes what the words overwrite; what lies past it in `output` keeps its values.
pub fn write_exactly(w: Words, text: &[u8], output: &mut [u8]) -> usize
    requires w_value { length text.now < 8 }
    requires text_in_bounds { length (encode_of (InHtml w.html) text.now) ≤ length output.old }
    ensures value { result ≡ length (encode_of (InHtml w.html) text.now) }
    ensures output_after { output.new ≡ over (encode_of (InHtml w.html) text.now) output.old }
{
    let mut buffer: [u8; 64] = [0; 64];
    let n = write_bytes(w, text, &mut buffer);
    base::put(&buffer[..n], output)
}
