// The encoder of the seven HTML contexts: by how many bytes a text grows, and its encoding, written into a lent output. html-escape's encode/html_entity.
//
// Plain text is quick since what is counted of a byte is a sum of comparisons, so that the loops over it become vector code. Text that is full of `<` is
// quick since the encoding of a byte is one word of eight bytes, of which the highest says how many count; for a long text these words are a table.
#![tactic(auto)]

mod cold;
mod fill;
mod gains;
mod look;
mod words;

ghost use Rattle.std.specs.Prelude.{◌≡◌, ℕ, ◌+◌, ◌*◌, ◌≤◌, ◌<◌, length, get_or};
ghost use Rattle.rules.specs.Bytes.{over};
ghost use Rattle.rules.specs.Moves.{through, replaced};
ghost use Rattle.rules.specs.Encoding.{encode_step};
ghost use Rattle.rules.specs.Operations.{encode_of};
ghost use Rattle.rules.specs.declared.Context.TheVariants.{InHtml};

use rules::Html;

// A text above this length is first tested for having nothing to replace, which is quicker than counting.
const LONG: usize = 256;

// The bytes past its end that a word may overwrite. As many are kept for the last, exact write.
const SPILL: usize = 7;

// What a pass over a text finds: `high`, which vector code gathers, is 0 only if it is ASCII, its encoding is `grow` bytes longer, and `replaced` of its places are replaced.
#[derive(Clone, Copy)]
pub struct Scan {
    pub high: usize,
    pub grow: usize,
    pub replaced: usize,
}

// Counts by how many bytes the encoding of a text is longer and how many places are replaced, and tells whether the text is ASCII.
pub fn survey(h: Html, text: &[u8]) -> Scan
    requires { length text.now ≤ 65536 }
    ensures grow_len { (length text.now + result.grow ≡ length (encode_of (InHtml h) text.now)) × (result.grow ≤ 5 * length text.now) × (result.replaced ≡ replaced (through (encode_step (InHtml h)) text.now)) }
    ensures k_bound { result.high ≡ 0 → (k : ℕ) → k < length text.now → get_or text.now k 0 < 128 }
{
    let w = words::words_of(h);
    let g = gains::gains_of(w);
    if LONG < text.len() {
        if look::is_unchanged(g, text) {
            return Scan {
                high: 0,
                grow: 0,
                replaced: 0,
            };
        }
    }
    look::count(g, text)
}

// Writes the encoding of a text, which is `grow` bytes longer, to the start of `output` and returns its length; what lies past it keeps its
// values. All but the last seven bytes are written by words that overwrite what comes next.
pub fn write(h: Html, text: &[u8], grow: usize, output: &mut [u8]) -> usize
    requires grow_len { length text.now + grow ≡ length (encode_of (InHtml h) text.now) }
    requires text_in_bounds { length (encode_of (InHtml h) text.now) ≤ length output.old }
    ensures value { result ≡ length (encode_of (InHtml h) text.now) }
    ensures output_after { output.new ≡ over (encode_of (InHtml h) text.now) output.old }
{
    let w = words::words_of(h);
    if text.len() <= SPILL {
        return fill::write_exactly(w, text, output);
    }
    let end = text.len() - SPILL;
    let at = fill::write_most(w, &text[..end], grow, output);
    at + fill::write_exactly(w, &text[end..], &mut output[at..])
}
