// read, the strict reader, in ascii_quoted.
#![tactic(auto)]

mod units;

ghost use Rattle.std.specs.Prelude.{◌≡◌, ◌≤◌, length};
ghost use Rattle.rules.specs.Bytes.{over};
ghost use Rattle.rules.specs.Moves.{through};
ghost use Rattle.rules.specs.Answers.{Measures};
ghost use Rattle.rules.specs.Reading.{read_step};
ghost use Rattle.rules.specs.Operations.{read_of};
ghost use Rattle.rules.specs.declared.Context.TheVariants.{InAscii};
ghost use Rattle.base.specs.First.{First};
ghost use Rattle.read_ascii.specs.Units.{is_halt, halt_at};

use rules::Measured;

// Reports whether a byte is in no plain stretch: above 7F, or one that the context replaces.
fn is_halt(b: u8) -> bool
    ensures { result ≡ is_halt b }
{
    (128 <= b) | (b == b'&') | (b == b'<') | (b == b'>') | (b == b'"') | (b == b'\'')
}

// Returns the first offset of such a byte from `from` on, or the text's length.
fn next_halt(text: &[u8], from: usize) -> usize
    requires { from ≤ length text.now }
    ensures { First (halt_at text.now) (length text.now) from result }
{
    for i in from..text.len() {
        if is_halt(text[i]) {
            return i;
        }
    }
    text.len()
}

// Measures the result of read without writing it. At an `&` there must be a unit. From any other byte on the text is plain up to the next byte that is
// not; if that is the byte itself, the reader stops there.
pub fn measure(text: &[u8]) -> Measured
    requires { length text.now ≤ 65536 }
    ensures { Measures result (through (read_step InAscii) text.now) }
{
    let mut length: usize = 0;
    let mut read: usize = 0;
    let mut i: usize = 0;
    // A cursor: each turn moves by the length of what it read.
    while i < text.len() {
        if text[i] != b'&' {
            let e = next_halt(text, i);
            if e == i {
                break;
            }
            length += e - i;
            i = e;
            continue;
        }
        let Some(unit) = units::read_unit(text, i) else {
            break;
        };
        length += base::chars::char_length(unit.character);
        read += 1;
        i += unit.taken;
    }
    Measured::whole(length, i, read)
}

// Writes the result of read to the start of `output`, leaves the bytes after it as they were, and returns what `measure` does. It goes through the
// text as that does.
pub fn write(text: &[u8], output: &mut [u8]) -> Measured
    requires { length (read_of InAscii text.now) ≤ length output.old }
    ensures { Measures result (through (read_step InAscii) text.now) × (output.new ≡ over (read_of InAscii text.now) output.old) }
{
    let mut at: usize = 0;
    let mut read: usize = 0;
    let mut i: usize = 0;
    // A cursor: each turn moves by the length of what it read.
    while i < text.len() {
        if text[i] != b'&' {
            let e = next_halt(text, i);
            if e == i {
                break;
            }
            at += base::put(&text[i..e], &mut output[at..]);
            i = e;
            continue;
        }
        let Some(unit) = units::read_unit(text, i) else {
            break;
        };
        at += base::chars::put_char(unit.character, &mut output[at..]);
        read += 1;
        i += unit.taken;
    }
    Measured::whole(at, i, read)
}
