// Reports of the references that decode leaves, line by line: what the program `reasons` prints. Which bytes these are for a text is `reasons_of` of
// crates/rules/specs/Program.antt; crates/reasons reads and prints the bytes.
#![tactic(auto)]

ghost use Rattle.std.specs.Prelude.{true, List, [], ◌≡◌, ℕ, ◌≤◌, length, take, MatchOption};
ghost use Rattle.rules.specs.Bytes.{over};
ghost use Rattle.rules.specs.Program.{reasons_of};
ghost use Rattle.reports.specs.Lines.{status_of, refusal_line, line_of, lines_from, Reported};

use lintelrye::Operation;
use requests::print;

// How much of a text has to be read: the longest that is taken, and a byte more, which makes it too long.
pub const ENOUGH: usize = requests::TEXT_LIMIT + 1;

// Room for every line: the names, and two numbers.
pub const LINE_ROOM: usize = 64;

// A line that was written: its length, and the place from which on the next one is looked for.
#[derive(Clone, Copy)]
pub struct Line {
    pub length: usize,
    pub next: usize,
}

// Reports whether the first `n` bytes of a text decide what is printed, whatever follows them.
pub fn is_enough(n: usize) -> bool
    ensures { result ≡ true → (s : List ℕ) → reasons_of (take n s) ≡ reasons_of s }
{
    ENOUGH <= n
}

// Returns the status of decode on a text, with the program's limit.
fn status(text: &[u8]) -> usize
    ensures { result ≡ status_of text.now }
{
    let mut result = requests::room();
    let answer = requests::limited(Operation::Decode, rules::TEXT, text, &mut result);
    answer.status
}

// Writes the line of a refusal to the start of `output` and returns how many bytes it is. None
// where decode passes.
pub fn refuse(text: &[u8], output: &mut [u8; LINE_ROOM]) -> Option<usize>
    ensures { MatchOption result ((refusal_line text.now ≡ []) × (output.new ≡ output.old)) (λ n. (n ≡ length (refusal_line text.now)) × (output.new ≡ over (refusal_line text.now) output.old) × (n ≤ length output.new)) }
{
    let status = status(text);
    if status == lintelrye::PASSED {
        return None;
    }
    Some(print::put_field(b"status=", status, b"\n", output))
}

// Writes the line of a reference that stays.
fn put_line(place: usize, reason: usize, output: &mut [u8]) -> usize
    requires { 64 ≤ length output.old }
    ensures { (result ≡ length (line_of place reason)) × (output.new ≡ over (line_of place reason) output.old) × (result ≤ 64) }
{
    let at = print::put_number(b"place=", place, output);
    at + print::put_field(b" reason=", reason, b"\n", &mut output[at..])
}

// Writes the line of the first reference from `from` on that decode leaves to the start of
// `output`. None where it leaves none.
pub fn report(text: &[u8], from: usize, output: &mut [u8; LINE_ROOM]) -> Option<Line>
    requires { from ≤ length text.now }
    ensures { MatchOption result ((lines_from text.now from ≡ []) × (output.new ≡ output.old)) (λ line. Reported text.now from line.length line.next output.old output.new) }
{
    let left = decode_html::next_left(text, from)?;
    Some(Line {
        length: put_line(left.place, usize::from(left.reason), output),
        next: left.place + 1,
    })
}
