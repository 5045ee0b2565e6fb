// The encoder of ascii_quoted, for texts that are not ASCII: a reference for every character above 7F, and ASCII as `quoted` writes it.
#![tactic(auto)]

pub mod characters;

ghost use Rattle.std.specs.Prelude.{◌≡◌, ◌≤◌, length};
ghost use Rattle.rules.specs.Bytes.{over};
ghost use Rattle.rules.specs.Moves.{through};
ghost use Rattle.rules.specs.Utf8.{valid_to};
ghost use Rattle.rules.specs.Answers.{Measures};
ghost use Rattle.rules.specs.Encoding.{encode_step};
ghost use Rattle.rules.specs.Operations.{encode_of};
ghost use Rattle.rules.specs.declared.Context.TheVariants.{InAscii};

use rules::Measured;

// Measures the encoding of a valid text without writing it, character by character.
pub fn measure(text: &[u8]) -> Measured
    requires { (length text.now ≤ 65536) × (valid_to text.now ≡ length text.now) }
    ensures { Measures result (through (encode_step InAscii) text.now) }
{
    let mut room: [u8; 32] = [0; 32];
    let mut length: usize = 0;
    let mut hits: usize = 0;
    let mut i: usize = 0;
    // A cursor: each turn moves by the length of what it read.
    while i < text.len() {
        let put = characters::put_next(text, i, &mut room);
        length += put.written;
        hits += put.replaced;
        i += put.width;
    }
    Measured::whole(length, i, hits)
}

// Writes the encoding of a valid text to the start of `output`, leaves the bytes after it as they were, and returns what `measure` does.
pub fn write(text: &[u8], output: &mut [u8]) -> Measured
    requires { (length text.now ≤ 65536) × (valid_to text.now ≡ length text.now) × (length (encode_of InAscii text.now) ≤ length output.old) }
    ensures { Measures result (through (encode_step InAscii) text.now) × (output.new ≡ over (encode_of InAscii text.now) output.old) }
{
    let mut room: [u8; 32] = [0; 32];
    let mut at: usize = 0;
    let mut hits: usize = 0;
    let mut i: usize = 0;
    // A cursor: each turn moves by the length of what it read.
    while i < text.len() {
        let put = characters::put_next(text, i, &mut room);
        let n = put.written;
        at += base::put(&room[..n], &mut output[at..]);
        hits += put.replaced;
        i += put.width;
    }
    Measured::whole(at, i, hits)
}
