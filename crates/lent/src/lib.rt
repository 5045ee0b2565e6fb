// Raw script by parts for a caller in C: the state is lent as two arrays, the held bytes and three numbers. A call takes the state out of them, makes the
// call of crate stream, and puts the state after it back where the call passed.
#![tactic(auto)]

ghost use Rattle.std.specs.Prelude.{true, false, [], ◌≡◌};
ghost use Rattle.lent.specs.Lent.{state_of, PartLent, Kept};

use rules::{Answer, RawPart, RawState};

// Returns the state that two arrays stand for.
fn state_in(held: &[u8; 8], numbers: &[usize; 3]) -> RawState
    ensures { result ≡ state_of held.now numbers.now }
{
    RawState {
        held: *held,
        count: numbers[0],
        done: numbers[1],
        finished: numbers[2] != 0,
    }
}

// Puts the state after a call that passed into the two arrays. A refused call leaves every bit of them as it was.
fn keep(part: RawPart, held: &mut [u8; 8], numbers: &mut [usize; 3]) -> Answer
    ensures { (result ≡ part.answer) × Kept part held.old numbers.old held.new numbers.new }
{
    if part.answer.status == rules::PASSED {
        let state = part.state;
        let bytes = state.held;
        *held = bytes;
        *numbers = [state.count, state.done, usize::from(state.finished)];
    }
    part.answer
}

// Encodes a part: `stream::script_raw_part` over the lent state.
pub fn script_raw_part(
    held: &mut [u8; 8],
    numbers: &mut [usize; 3],
    text: &[u8],
    output: &mut [u8],
) -> Answer
    ensures { PartLent false held.old numbers.old text.now output.old result held.new numbers.new output.new }
{
    let part = stream::script_raw_part(state_in(held, numbers), text, output);
    keep(part, held, numbers)
}

// Ends the script: `stream::script_raw_finish` over the lent state.
pub fn script_raw_finish(held: &mut [u8; 8], numbers: &mut [usize; 3], output: &mut [u8]) -> Answer
    ensures { PartLent true held.old numbers.old [] output.old result held.new numbers.new output.new }
{
    let part = stream::script_raw_finish(state_in(held, numbers), output);
    keep(part, held, numbers)
}
