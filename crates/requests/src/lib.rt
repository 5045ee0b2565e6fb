// Requests to the program `entity`: reads the header lines, makes the call that they ask for, and writes the lines of the answer. `reply` does all of
// it, in memory; crates/entity reads and prints the bytes. Which bytes are printed for a request is `entity_of` of crates/rules/specs/Program.antt.
// The room for a reply stands in each contract, as do operation, context, text and output: they are those of the call that a request asks for, and go on to it.
#![tactic(auto)]

pub mod lines;
pub mod print;

ghost use Rattle.std.specs.Prelude.{true, false, List, ◌≡◌, ℕ, ◌≤◌, length, take};
ghost use Rattle.std.proofs.Math.Option.{none};
ghost use Rattle.rules.specs.Bytes.{over};
ghost use Rattle.rules.specs.Contexts.{context_of};
ghost use Rattle.rules.specs.Refusals.{Allowed};
ghost use Rattle.rules.specs.Program.{result_room, entity_of, request_of, context_line, printed_call};
ghost use Rattle.rules.specs.declared.Operation.TheVariants.{Read};
ghost use Rattle.requests.specs.Asked.{reply_room, asked, answer_to, output_of, refused, printed_by, Prints};

use frame::Refusal;
use lintelrye::{Answer, Operation, labels};

// The longest text of a request, in bytes.
pub const TEXT_LIMIT: usize = 8192;

// Room for every result: a result has at most 22 bytes for 3 of its text.
pub const RESULT_ROOM: usize = 22 * TEXT_LIMIT / 3;

// Room for every reply: the lines of an answer, and a result.
pub const REPLY_ROOM: usize = 65536;

// The longest header: the lines `op=encode` and `context=double_quoted`, and `text=`.
const HEADER_LIMIT: usize = 10 + 22 + 5;

// How much of a request has to be read: the longest header, the longest text, and a byte more, which makes the text too long.
pub const ENOUGH: usize = HEADER_LIMIT + TEXT_LIMIT + 1;

// Reports whether the first `n` bytes of a request decide the reply, whatever follows them.
pub fn is_enough(n: usize) -> bool
    ensures { result ≡ true → (s : List ℕ) → entity_of (take n s) ≡ entity_of s }
{
    ENOUGH <= n
}

// Returns the answer for a text above the limit; `empty` is the answer for the empty text, which shows whether the operation has the context.
fn too_long(empty: Answer) -> Answer
    ensures { result ≡ refused empty }
{
    if empty.status == lintelrye::BAD_CONTEXT {
        return empty;
    }
    Answer::from(Refusal::TooLong)
}

// Reads a text by the two calls: check judges it, and only a form is taken.
fn read(context: u32, text: &[u8], output: &mut [u8]) -> Answer
    ensures { Allowed Read (context_of context) false text.now output.old result output.new }
{
    let checked = lintelrye::check(context, text);
    if checked.status != lintelrye::PASSED {
        return Answer::refusal(checked.status, checked.length, checked.place);
    }
    lintelrye::take(context, text, output)
}

// Makes the copying call of an operation.
fn copying(operation: Operation, context: u32, text: &[u8], output: &mut [u8]) -> Answer
    ensures { Allowed operation (context_of context) false text.now output.old result output.new }
{
    match operation {
        Operation::Read => read(context, text, output),
        _ => lintelrye::call(operation, context, false, text, output),
    }
}

// Makes the call that a request asks for, with the program's limit.
pub fn limited(operation: Operation, context: u32, text: &[u8], output: &mut [u8]) -> Answer
    ensures { (result ≡ answer_to (asked operation context text.now (length output.old))) × (output.new ≡ output_of (asked operation context text.now (length output.old)) output.old) }
{
    if TEXT_LIMIT < text.len() {
        return too_long(copying(operation, context, &text[..0], output));
    }
    copying(operation, context, text, output)
}

// Returns a buffer that holds every result.
pub fn room() -> [u8; RESULT_ROOM]
    ensures { result_room ≡ length result }
{
    [0; RESULT_ROOM]
}

// Makes the call that a request asks for, and writes the lines of the answer and the result, which is empty after a refusal.
fn converse(operation: Operation, context: u32, text: &[u8], output: &mut [u8]) -> usize
    requires { reply_room ≤ length output.old }
    ensures { Prints (printed_call (asked operation context text.now result_room)) result output.old output.new }
{
    let mut result = room();
    let answer = limited(operation, context, text, &mut result);
    let at = print::put_answer(answer, output);
    at + base::put(lintelrye::view(text, &result, answer), &mut output[at..])
}

// Writes the answer to what is no request.
fn refuse(output: &mut [u8]) -> usize
    requires { reply_room ≤ length output.old }
    ensures { Prints (printed_by none) result output.old output.new }
{
    print::put_answer(Answer::from(Refusal::BadRequest), output)
}

// Answers a request from the line of the context on.
fn with_context(operation: Operation, rest: &[u8], output: &mut [u8]) -> usize
    requires { reply_room ≤ length output.old }
    ensures { Prints (printed_by (context_line operation rest.now)) result output.old output.new }
{
    let Some(line) = lines::find_text(rest) else {
        return refuse(output);
    };
    converse(operation, line.number, &rest[line.length..], output)
}

// Answers a whole request, in an output that is long enough.
fn with_operation(input: &[u8], output: &mut [u8]) -> usize
    requires { reply_room ≤ length output.old }
    ensures { Prints (printed_by (request_of input.now)) result output.old output.new }
{
    let Some(line) = lines::find_line(&labels::OPERATION_NAMES, b"op=", input) else {
        return refuse(output);
    };
    let operation = labels::operation_of(line.number);
    with_context(operation, &input[line.length..], output)
}

// Answers a request: writes to the start of `output` what the program prints for `input`, and returns how many bytes they are; the rest of `output`
// keeps its values.
pub fn reply(input: &[u8], output: &mut [u8; REPLY_ROOM]) -> usize
    ensures { (result ≡ length (entity_of input.now)) × (output.new ≡ over (entity_of input.now) output.old) × (result ≤ length output.new) }
{
    with_operation(input, output)
}
