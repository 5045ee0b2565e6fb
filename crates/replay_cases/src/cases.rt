// One case: the call, and what is compared.
use lintelrye::{Answer, Operation};
use std::fmt;

// The call that a case makes.
#[derive(Clone, Copy)]
pub struct Case {
    pub operation: Operation,
    pub context: u32,
    pub borrows: bool,
}

// What the list says of a case: the length of the output, the answer, and how many bytes of the result stand in the output afterwards.
#[derive(Clone, Copy)]
pub struct Expected {
    pub room: usize,
    pub answer: Answer,
    pub written: usize,
}

// The first thing in which a case differs from the list.
#[derive(Clone, Copy)]
pub enum Difference {
    Status,
    Length,
    Same,
    Replaced,
    Place,
    Left,
    Reason,
    Written,
    Kept,
    View,
    Check,
}

// Prints what differs.
impl fmt::Display for Difference {
    fn fmt<W: fmt::Write>(&self, f: &mut fmt::Formatter<W>) -> fmt::Result {
        f.write_str(match self {
            Difference::Status => "status",
            Difference::Length => "length",
            Difference::Same => "same",
            Difference::Replaced => "replaced",
            Difference::Place => "place",
            Difference::Left => "left",
            Difference::Reason => "reason",
            Difference::Written => "a byte of the result",
            Difference::Kept => "a byte that is to stay",
            Difference::View => "view",
            Difference::Check => "check",
        })
    }
}

// Gives the difference where something is not as the list says.
fn expect(holds: bool, difference: Difference) -> Result<(), Difference> {
    if holds { Ok(()) } else { Err(difference) }
}

// Returns the byte at a place of the output before a call: 248 to 255 by turns, none of which stands in valid UTF-8.
fn pattern(at: usize) -> u8 {
    248 + (at % 8) as u8
}

// Fills the output with the pattern up to a place.
fn fill(output: &mut [u8], end: usize) {
    for (i, b) in output.iter_mut().take(end).enumerate() {
        *b = pattern(i);
    }
}

// Reports whether the output holds the pattern from a place up to another.
fn is_kept(output: &[u8], start: usize, end: usize) -> bool {
    output
        .iter()
        .enumerate()
        .take(end)
        .skip(start)
        .all(|(i, b)| *b == pattern(i))
}

// Reports whether the first bytes of the output are those of the result.
fn is_written(output: &[u8], res: &[u8], written: usize) -> bool {
    match (output.get(..written), res.get(..written)) {
        (Some(there), Some(wanted)) => *there == *wanted,
        _ => false,
    }
}

// Reports whether view gives the result where the call passed, and nothing where it refused.
fn is_viewed<'a>(text: &'a [u8], res: &[u8], output: &'a [u8], answer: Answer) -> bool {
    let viewed = lintelrye::view(text, output, answer);
    if answer.status == lintelrye::PASSED {
        return *viewed == *res;
    }
    viewed.is_empty()
}

// Reports whether check, beside a call of read, says the same of the text: status, length and place, with 0 instead of NO_ROOM.
fn is_checked(case: Case, expected: Expected, text: &[u8]) -> bool {
    let Operation::Read = case.operation else {
        return true;
    };
    let checked = lintelrye::check(case.context, text);
    let answer = expected.answer;
    let status = if answer.status == lintelrye::NO_ROOM {
        lintelrye::PASSED
    } else {
        answer.status
    };
    checked.status == status && checked.length == answer.length && checked.place == answer.place
}

// Compares the seven numbers of an answer, one after the other.
fn numbers(answer: Answer, expected: Answer) -> Result<(), Difference> {
    expect(answer.status == expected.status, Difference::Status)?;
    expect(answer.length == expected.length, Difference::Length)?;
    expect(answer.same == expected.same, Difference::Same)?;
    expect(answer.replaced == expected.replaced, Difference::Replaced)?;
    expect(answer.place == expected.place, Difference::Place)?;
    expect(answer.left == expected.left, Difference::Left)?;
    expect(answer.reason == expected.reason, Difference::Reason)
}

// Makes a call in an output that holds the pattern, and compares.
fn compared(
    case: Case,
    expected: Expected,
    text: &[u8],
    res: &[u8],
    output: &mut [u8],
) -> Result<(), Difference> {
    let answer = lintelrye::call(case.operation, case.context, case.borrows, text, output);
    numbers(answer, expected.answer)?;
    expect(
        is_written(output, res, expected.written),
        Difference::Written,
    )?;
    expect(
        is_kept(output, expected.written, output.len()),
        Difference::Kept,
    )?;
    expect(is_viewed(text, res, output, answer), Difference::View)?;
    expect(is_checked(case, expected, text), Difference::Check)
}

// Runs a case in the first `room` bytes of a buffer that has more; the eight bytes past them are
// compared too. Gives the first difference, if there is one.
pub fn run(
    case: Case,
    expected: Expected,
    text: &[u8],
    res: &[u8],
    buffer: &mut [u8],
) -> Result<(), Difference> {
    let room = expected.room;
    let past = room.wrapping_add(8);
    fill(buffer, past);
    let Some(output) = buffer.get_mut(..room) else {
        return Err(Difference::Kept);
    };
    let compared = compared(case, expected, text, res, output);
    expect(is_kept(buffer, room, past), Difference::Kept)?;
    compared
}
