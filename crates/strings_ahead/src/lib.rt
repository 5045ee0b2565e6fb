// Escapes a text for a string of a script, a style sheet or JSON, as crate encode_strings does, and a long one faster.
#![tactic(auto)]

mod ahead;
mod cold;
mod words;

ghost use Rattle.std.specs.Prelude.{◌≤◌, ◌≡◌, length};
ghost use Rattle.rules.specs.Bytes.{over};
ghost use Rattle.rules.specs.Contexts.{written_in};
ghost use Rattle.rules.specs.Encoding.{encode_step};
ghost use Rattle.rules.specs.Moves.{through};
ghost use Rattle.rules.specs.Answers.{Measures};
ghost use Rattle.rules.specs.Operations.{encode_of};

use ahead::Words;
use rules::{Measured, Notation, Quotes};

// A text above this length is written by a table of the words of all bytes, which takes longer to make than it saves on a shorter one.
const LONG: usize = 4096;

// Does the same as `write` for a long text: the table of words stands here, and is lent.
fn write_long(notation: Notation, quotes: Quotes, text: &[u8], output: &mut [u8]) -> Measured
    requires { (16 ≤ length text.now) × (length text.now ≤ 65536) × (length (encode_of (written_in notation quotes) text.now) ≤ length output.old) }
    ensures { Measures result (through (encode_step (written_in notation quotes)) text.now) × (output.new ≡ over (encode_of (written_in notation quotes) text.now) output.old) }
{
    let mut table: [u64; 256] = [0x0100_0000_0000_0000; 256];
    words::fill(notation, quotes, &mut table);
    Words::of(notation, quotes, &table).write(text, output)
}

// Writes the escaped text to the start of `output`, leaves the bytes after it as they were, and returns what `encode_strings::measure` does.
pub fn write(notation: Notation, quotes: Quotes, text: &[u8], output: &mut [u8]) -> Measured
    requires { (length text.now ≤ 65536) × (length (encode_of (written_in notation quotes) text.now) ≤ length output.old) }
    ensures { Measures result (through (encode_step (written_in notation quotes)) text.now) × (output.new ≡ over (encode_of (written_in notation quotes) text.now) output.old) }
{
    if LONG < text.len() {
        return write_long(notation, quotes, text, output);
    }
    encode_strings::write(notation, quotes, text, output)
}
