// read, the strict reader: a text that is a run of the context's units, read back, in the contexts whose units are those of a table.
#![tactic(auto)]

ghost use Rattle.std.specs.Prelude.{◌≡◌, ◌≤◌, length};
ghost use Rattle.rules.specs.Bytes.{over};
ghost use Rattle.rules.specs.Moves.{through};
ghost use Rattle.rules.specs.Utf8.{valid_to};
ghost use Rattle.rules.specs.Answers.{Measures};
ghost use Rattle.rules.specs.Reading.{read_step};
ghost use Rattle.rules.specs.Operations.{read_of};
ghost use Rattle.reader.specs.Units.{Ruleless};

use replaced::Special;
use rules::{Context, Measured};

pub mod replaced;
pub mod units;

// Measures the result of read of a valid text without writing it. At the byte that units start with there must be one. From any other byte on the text
// is plain up to the next replaced character; if that is the byte itself, the reader stops there.
pub fn measure(c: Context, text: &[u8]) -> Measured
    requires { (length text.now ≤ 65536) × (valid_to text.now ≡ length text.now) × Ruleless c }
    ensures { Measures result (through (read_step c) text.now) }
{
    let special = Special::of(c);
    let mark = units::mark_of(c);
    let mut length: usize = 0;
    let mut units: usize = 0;
    let mut i: usize = 0;
    // A cursor: each turn moves by the length of what it read.
    while i < text.len() {
        if text[i] != mark {
            let e = special.next_replaced(text, i);
            if e == i {
                break;
            }
            length += e - i;
            i = e;
            continue;
        }
        let Some(unit) = units::read_unit(c, &special.set, text, i) else {
            break;
        };
        length += base::chars::char_length(unit.character);
        units += 1;
        i += unit.taken;
    }
    Measured::whole(length, i, units)
}

// Writes the result of read of a valid text to the start of `output`, leaves the bytes after it as they were, and returns what `measure` does. It goes
// through the text as that does.
pub fn write(c: Context, text: &[u8], output: &mut [u8]) -> Measured
    requires { (valid_to text.now ≡ length text.now) × (length (read_of c text.now) ≤ length output.old) × Ruleless c }
    ensures { Measures result (through (read_step c) text.now) × (output.new ≡ over (read_of c text.now) output.old) }
{
    let special = Special::of(c);
    let mark = units::mark_of(c);
    let mut at: usize = 0;
    let mut units: usize = 0;
    let mut i: usize = 0;
    // A cursor: each turn moves by the length of what it read.
    while i < text.len() {
        if text[i] != mark {
            let e = special.next_replaced(text, i);
            if e == i {
                break;
            }
            at += base::put(&text[i..e], &mut output[at..]);
            i = e;
            continue;
        }
        let Some(unit) = units::read_unit(c, &special.set, text, i) else {
            break;
        };
        at += base::chars::put_char(unit.character, &mut output[at..]);
        units += 1;
        i += unit.taken;
    }
    Measured::whole(at, i, units)
}
