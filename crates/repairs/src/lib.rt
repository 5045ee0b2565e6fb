// Repairs of stored fields that were escaped more than once: reads the request of the program `repair`, takes the layers off, and writes what the
// program prints. `reply` does all of it, in memory; crates/repair reads and prints the bytes. Which bytes are printed for a request is `repair_of` of
// specs/Repair.antt.
// The room for a reply stands in each contract: the output is its caller's, and each part is written behind the other.
#![tactic(auto)]

ghost use Rattle.std.specs.Prelude.{true, List, ◌++◌, ◌≡◌, ◌≢◌, ℕ, ◌≤◌, length, take, MatchResult};
ghost use Rattle.rules.specs.Bytes.{ascii, over};
ghost use Rattle.rules.specs.Contexts.{context_of};
ghost use Rattle.rules.specs.Program.{context_line, decimal};
ghost use Rattle.rules.specs.declared.AnyContext.TheVariants.{Units};
ghost use Rattle.rules.specs.declared.Operation.TheVariants.{Read};
ghost use Rattle.requests.specs.Asked.{Prints};
ghost use Rattle.repairs.specs.Repair.{writing, peel, is_html, status_of, status_line, mended, repaired, repaired_by, repair_of};
ghost use Rattle.repairs.specs.Layers.{below, below_length, PeeledOff, Writable, reply_room};

use requests::print::put_field;
use requests::{TEXT_LIMIT, lines};
use rules::{AnyContext, Context};

// The most readings of a field.
const READINGS: usize = 4;

// Room for every reply: `layers=` with a number of at most twenty digits, 0A, `text=`, and a text that is no longer than the stored field.
pub const REPLY_ROOM: usize = 7 + 20 + 6 + TEXT_LIMIT;

// The longest header: the line `context=double_quoted`, and `text=`.
const HEADER_LIMIT: usize = 22 + 5;

// How much of a request has to be read: the longest header, the longest field, and a byte more, which makes the field too long.
pub const ENOUGH: usize = HEADER_LIMIT + TEXT_LIMIT + 1;

// What is left of a field: the length of the last text, and how many layers were taken off.
#[derive(Clone, Copy)]
pub struct Peeled {
    pub length: usize,
    pub layers: usize,
}

// Reports whether the first `n` bytes of a request decide the reply, whatever follows them.
pub fn is_enough(n: usize) -> bool
    ensures { result ≡ true → (s : List ℕ) → repair_of (take n s) ≡ repair_of s }
{
    ENOUGH <= n
}

// Reports whether a context is one of HTML.
fn is_html(context: Context) -> bool
    ensures { result ≡ is_html (Units context) }
{
    matches!(context, Context::InHtml(_) | Context::InAscii)
}

// Reports whether a number is that of an HTML context.
fn names_html(number: u32) -> bool
    ensures { result ≡ is_html (context_of number) }
{
    match rules::context_of(number) {
        AnyContext::Units(context) => is_html(context),
        _ => false,
    }
}

// Judges a stored field; the error is the status that says why it cannot be repaired.
fn judge(context: u32, text: &[u8]) -> Result<(), usize>
    ensures { MatchResult result (λ _. status_of (context_of context) text.now ≡ 0) (λ status. (status ≡ status_of (context_of context) text.now) × (status ≢ 0)) }
{
    if !names_html(context) {
        return Err(lintelrye::BAD_CONTEXT);
    }
    if TEXT_LIMIT < text.len() {
        return Err(lintelrye::TOO_LONG);
    }
    let checked = lintelrye::check(context, text);
    if checked.status != lintelrye::PASSED {
        return Err(checked.status);
    }
    Ok(())
}

// Reads a text strictly: writes the text below to `output` and returns its length, if the reading
// passes and replaces something.
fn peel_one(context: u32, text: &[u8], output: &mut [u8; TEXT_LIMIT]) -> Option<usize>
    requires { length text.now ≤ 8192 }
    ensures { (below result output.new ≡ peel (context_of context) text.now) × (below_length result ≤ length output.new) × (below_length result ≤ 8192) }
{
    let checked = lintelrye::check(context, text);
    if checked.status != lintelrye::PASSED {
        return None;
    }
    let answer = lintelrye::take(context, text, output);
    if answer.replaced == 0 {
        return None;
    }
    Some(answer.length)
}

// Reads the text of `size` bytes at the start of `field` again and again, at most four times: the last text stands there afterwards.
fn peel_all(context: u32, size: usize, field: &mut [u8]) -> Peeled
    requires { (size ≤ 8192) × (length field.old ≡ 8192) }
    ensures { PeeledOff (context_of context) (take size field.old) result field.new }
{
    let mut next = [0u8; TEXT_LIMIT];
    let mut n = size;
    for layers in 0..READINGS {
        let Some(m) = peel_one(context, &field[..n], &mut next) else {
            return Peeled { length: n, layers };
        };
        n = base::put(&next[..m], field);
    }
    Peeled {
        length: n,
        layers: READINGS,
    }
}

// Writes the line of the layers, and the last text, encoded once.
fn put_mended(context: u32, layers: usize, text: &[u8], output: &mut [u8]) -> usize
    requires { Writable (context_of context) text.now × (reply_room ≤ length output.old) }
    ensures { Prints (ascii "layers=" ++ decimal layers ++ ascii "\ntext=" ++ writing (context_of context) text.now) result output.old output.new }
{
    let at = put_field(b"layers=", layers, b"\ntext=", output);
    let answer = lintelrye::encode(context, text, &mut output[at..]);
    at + answer.length
}

// Repairs a field whose status is 0.
fn mend(context: u32, text: &[u8], output: &mut [u8]) -> usize
    requires { (status_of (context_of context) text.now ≡ 0) × (reply_room ≤ length output.old) }
    ensures { Prints (mended (context_of context) text.now) result output.old output.new }
{
    let mut field = [0u8; TEXT_LIMIT];
    let n = base::put(text, &mut field);
    let peeled = peel_all(context, n, &mut field);
    let end = peeled.length;
    put_mended(context, peeled.layers, &field[..end], output)
}

// Writes the one line of a refusal.
fn refuse(status: usize, output: &mut [u8]) -> usize
    requires { reply_room ≤ length output.old }
    ensures { Prints (status_line status) result output.old output.new }
{
    put_field(b"status=", status, b"\n", output)
}

// Repairs a field, or refuses it.
fn repair(context: u32, text: &[u8], output: &mut [u8]) -> usize
    requires { reply_room ≤ length output.old }
    ensures { Prints (repaired (context_of context) text.now) result output.old output.new }
{
    match judge(context, text) {
        Ok(()) => mend(context, text, output),
        Err(status) => refuse(status, output),
    }
}

// Answers a request, in an output that is long enough.
fn answer(input: &[u8], output: &mut [u8]) -> usize
    requires { reply_room ≤ length output.old }
    ensures { Prints (repaired_by (context_line Read input.now)) result output.old output.new }
{
    let Some(line) = lines::find_text(input) else {
        return refuse(rules::BAD_REQUEST, output);
    };
    repair(line.number, &input[line.length..], output)
}

// Answers a request: writes to the start of `output` what the program prints for `input`, and returns how many bytes they are; the rest of `output`
// keeps its values.
pub fn reply(input: &[u8], output: &mut [u8; REPLY_ROOM]) -> usize
    ensures { (result ≡ length (repair_of input.now)) × (output.new ≡ over (repair_of input.now) output.old) × (result ≤ length output.new) }
{
    answer(input, output)
}
