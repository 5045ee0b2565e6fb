// Replays the list of the oracle's answers, which compare/src/bin/generate.rs makes of the unchanged Rust: reads it from standard input, makes
// each call that it names, and compares the seven numbers, every byte written, every byte that must stay as it was, what view gives, and, beside each
// call of read, what check says.
// It prints how many cases ran and how many differ, for each operation and context and in all, and names the first that differ.
//
// A line of the list is one of these:
//   # ..       a remark;
//   tTEXT      the text of the cases that follow, and what they give, until an r line says otherwise;
//   rRESULT    what the cases that follow give where they pass;
//   OPERATIONS CONTEXTS KINDS ROOM STATUS LENGTH SAME REPLACED PLACE LEFT REASON WRITTEN
//              a case for each operation (E, D, R, B), context (a for 0, b for 1, ..; z for the largest number) and kind of call (c, b): with an
//              output of ROOM bytes the answer is the seven numbers, and the first WRITTEN bytes of the output are those of the result;
//   end COUNT  the last line: how many cases the list has.
// crates/replay_list says how a text is spelt. A list with any other line, or with another count, is reported as malformed.
#![tactic(auto)]

ghost use Rattle.std.specs.Prelude.{◌≡◌, length};

use lintelrye::Operation;
use replay_cases::cases::{Case, Expected};
use replay_cases::report::Tally;
use replay_cases::{State, cases, report};
use replay_list::{after, byte_at, past_letters, read_number};
use rules::Answer;
use std::io;

// Returns the state at the start of the next line, where a line ends at a place. As each function
// that reads a line, it gives None where that is malformed.
fn next_line(list: &[u8], state: State, end: usize) -> Option<State> {
    if byte_at(list, end)? != b'\n' {
        return None;
    }
    Some(State {
        at: after(end),
        line: state.line.wrapping_add(1),
        ..state
    })
}

// Skips a remark.
fn remark(list: &[u8], state: State) -> Option<State> {
    next_line(list, state, replay_list::line_end(list, state.at))
}

// Reads a t line: the text goes into both buffers.
fn text_line(list: &[u8], state: State, text: &mut [u8], res: &mut [u8]) -> Option<State> {
    let start = after(state.at);
    let read = replay_list::text(list, start, text)?;
    let again = replay_list::text(list, start, res)?;
    let next = State {
        text: read.length,
        result: again.length,
        ..state
    };
    next_line(list, next, read.next)
}

// Reads an r line: the result goes into its buffer.
fn result_line(list: &[u8], state: State, res: &mut [u8]) -> Option<State> {
    let read = replay_list::text(list, after(state.at), res)?;
    let next = State {
        result: read.length,
        ..state
    };
    next_line(list, next, read.next)
}

// Reads the last line: its count must be that of the cases that ran, and nothing may follow it.
fn end_line(list: &[u8], state: State, ran: u64) -> Option<State> {
    let count = read_number(list, after(past_letters(list, state.at)));
    let next = next_line(list, state, count.next)?;
    if count.value? as u64 != ran || next.at != list.len() {
        return None;
    }
    Some(State {
        ended: true,
        ..next
    })
}

// Returns the operation of a letter.
fn operation_of(letter: u8) -> Option<Operation> {
    match letter {
        b'E' => Some(Operation::Encode),
        b'D' => Some(Operation::Decode),
        b'R' => Some(Operation::Read),
        b'B' => Some(Operation::Browse),
        _ => None,
    }
}

// Returns the context of a letter: 0 for `a`, 1 for `b` and so on, and the largest number for `z`.
fn context_of(letter: Option<u8>) -> u32 {
    match letter {
        Some(letter) if b'a' <= letter && letter != b'z' => u32::from(letter - b'a'),
        _ => u32::MAX,
    }
}

// The places of the letters of a line's next case, and where the line's contexts and kinds begin.
#[derive(Clone, Copy)]
struct Letters {
    operation: usize,
    context: usize,
    kind: usize,
    contexts: usize,
    kinds: usize,
}

impl Letters {
    // Reads the letters of a case.
    fn case(self, list: &[u8]) -> Option<Case> {
        let borrows = match byte_at(list, self.kind)? {
            b'b' => true,
            b'c' => false,
            _ => return None,
        };
        Some(Case {
            operation: operation_of(byte_at(list, self.operation)?)?,
            context: context_of(byte_at(list, self.context)),
            borrows,
        })
    }

    // Returns the letters of the next case: the next kind; else the first kind in the next context;
    // else the first of both in the next operation.
    fn next(self, list: &[u8]) -> Letters {
        let kind = after(self.kind);
        if byte_at(list, kind) != Some(b' ') {
            return Letters { kind, ..self };
        }
        let context = after(self.context);
        if byte_at(list, context) != Some(b' ') {
            return Letters {
                context,
                kind: self.kinds,
                ..self
            };
        }
        Letters {
            operation: after(self.operation),
            context: self.contexts,
            kind: self.kinds,
            ..self
        }
    }
}

// Runs the cases of a line, of which there are at most 4 times 26 times 2. Answers whether the
// letters are right. The buffers are lent one by one, since a case reads two of them while it
// writes the third.
fn each_case(
    rt: &HostRuntime,
    list: &[u8],
    line: u64,
    first: Letters,
    expected: Expected,
    text: &[u8],
    res: &[u8],
    output: &mut [u8],
    tally: &mut Tally,
) -> io::Result<bool> {
    let mut letters = first;
    for _ in 0..209 {
        if byte_at(list, letters.operation) == Some(b' ') {
            return Ok(true);
        }
        let Some(case) = letters.case(list) else {
            return Ok(false);
        };
        let compared = cases::run(case, expected, text, res, output);
        report::count(rt, line, case, compared, tally)?;
        letters = letters.next(list);
    }
    Ok(false)
}

// Reads the nine numbers of a line of cases, and returns the place past them too. One that is
// missing is 0, but for the last, which must be there.
fn read_numbers(list: &[u8], at: usize) -> Option<(Expected, usize)> {
    let mut number = read_number(list, at);
    let mut values = [number.value.unwrap_or(0); 9];
    for value in values[1..].iter_mut() {
        number = read_number(list, after(number.next));
        *value = number.value.unwrap_or(0);
    }
    number.value?;
    let [
        room,
        status,
        length,
        same,
        replaced,
        place,
        left,
        reason,
        written,
    ] = values;
    let answer = Answer {
        status,
        length,
        same,
        replaced,
        place,
        left,
        reason,
    };
    let expected = Expected {
        room,
        answer,
        written,
    };
    Some((expected, number.next))
}

// Reads a line of cases and runs them.
fn case_line(
    rt: &HostRuntime,
    list: &[u8],
    state: State,
    text: &[u8],
    res: &[u8],
    output: &mut [u8],
    tally: &mut Tally,
) -> io::Result<Option<State>> {
    let contexts = after(past_letters(list, state.at));
    let kinds = after(past_letters(list, contexts));
    let Some((expected, end)) = read_numbers(list, after(past_letters(list, kinds))) else {
        return Ok(None);
    };
    if output.len() <= expected.room {
        return Ok(None);
    }
    let Some(next) = next_line(list, state, end) else {
        return Ok(None);
    };
    let first = Letters {
        operation: state.at,
        context: contexts,
        kind: kinds,
        contexts,
        kinds,
    };
    let right = each_case(
        rt, list, state.line, first, expected, text, res, output, tally,
    )?;
    Ok(if right { Some(next) } else { None })
}

// Goes through one line.
fn one_line(
    rt: &HostRuntime,
    list: &[u8],
    state: State,
    text: &mut [u8],
    res: &mut [u8],
    output: &mut [u8],
    tally: &mut Tally,
) -> io::Result<Option<State>> {
    match byte_at(list, state.at) {
        Some(b'#') => Ok(remark(list, state)),
        Some(b't') => Ok(text_line(list, state, text, res)),
        Some(b'r') => Ok(result_line(list, state, res)),
        Some(b'e') => Ok(end_line(list, state, tally.all.ran)),
        _ => match (text.get(..state.text), res.get(..state.result)) {
            (Some(text), Some(res)) => case_line(rt, list, state, text, res, output, tally),
            _ => Ok(None),
        },
    }
}

// Goes through the list, which has no more lines than bytes, until its end or until a line is
// malformed, and returns the state at that line.
fn replay(
    rt: &HostRuntime,
    list: &[u8],
    text: &mut [u8],
    res: &mut [u8],
    output: &mut [u8],
    tally: &mut Tally,
) -> io::Result<State> {
    let mut state = State {
        at: 0,
        line: 1,
        text: 0,
        result: 0,
        ended: false,
    };
    for _ in list {
        match one_line(rt, list, state, text, res, output, tally)? {
            Some(next) if !next.ended => state = next,
            Some(last) => return Ok(last),
            None => return Ok(state),
        }
    }
    Ok(state)
}

// Returns room for the list. The length is what lending a part of it asks for.
fn buffer() -> [u8; 2097152]
    ensures { 2097152 ≡ length result }
{
    [0; 2097152]
}

// Returns room for a text, a result or an output.
fn room() -> [u8; 1048576]
    ensures { 1048576 ≡ length result }
{
    [0; 1048576]
}

// Reads the list, replays it and prints the report.
fn main(rt: HostRuntime) -> io::Result<()> {
    let mut list = buffer();
    let mut text = room();
    let mut result = room();
    let mut output = room();
    let mut tally = report::no_cases();
    let n = pipes::read_into(&rt, &mut list)?;
    let state = replay(
        &rt,
        &list[..n],
        &mut text,
        &mut result,
        &mut output,
        &mut tally,
    )?;
    report::all(&rt, state, &tally)
}
