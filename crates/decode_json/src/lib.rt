// decode of JSON strings: what RFC 8259, section 7, allows between the quotation marks of a string.
#![tactic(auto)]

mod escapes;
mod halts;

ghost use Rattle.std.specs.Prelude.{◌≡◌, ◌≤◌, eqb, length};
ghost use Rattle.rules.specs.Bytes.{over};
ghost use Rattle.rules.specs.Moves.{through, result as result_of, why};
ghost use Rattle.rules.specs.Answers.{Measures};
ghost use Rattle.rules.specs.Json.{json_step};

use rules::Measured;

// Measures the result of decode without writing it. At a backslash there must be an escape. From any other byte on the text is copied up to the next byte
// that may not stand by itself; if that is the byte itself, the content ends there.
pub fn measure(text: &[u8]) -> Measured
    requires { length text.now ≤ 65536 }
    ensures { Measures result (through json_step text.now) }
{
    let mut length: usize = 0;
    let mut escapes: usize = 0;
    let mut i: usize = 0;
    // A cursor: each turn moves by the length of what it read.
    while i < text.len() {
        if text[i] != b'\\' {
            let e = halts::next_halt(text, i);
            if e == i {
                break;
            }
            length += e - i;
            i = e;
            continue;
        }
        let Some(escape) = escapes::read_escape(&text[i..]) else {
            break;
        };
        length += base::chars::char_length(escape.character);
        escapes += 1;
        i += escape.taken;
    }
    Measured::whole(length, i, escapes)
}

// Writes the result of decode to the start of `output`, leaves the bytes after it as they were, and returns what `measure` does. It goes through the
// text as that does.
pub fn write(text: &[u8], output: &mut [u8]) -> Measured
    requires { length (result_of (through json_step text.now)) ≤ length output.old }
    ensures { Measures result (through json_step text.now) × (output.new ≡ over (result_of (through json_step text.now)) output.old) }
{
    let mut at: usize = 0;
    let mut escapes: usize = 0;
    let mut i: usize = 0;
    // A cursor: each turn moves by the length of what it read.
    while i < text.len() {
        if text[i] != b'\\' {
            let e = halts::put_until(text, i, &mut output[at..]);
            if e == i {
                break;
            }
            at += e - i;
            i = e;
            continue;
        }
        let Some(escape) = escapes::read_escape(&text[i..]) else {
            break;
        };
        at += base::chars::put_char(escape.character, &mut output[at..]);
        escapes += 1;
        i += escape.taken;
    }
    Measured::whole(at, i, escapes)
}

// Reports whether decode stops at the start of `rest` because half a surrogate pair stands alone there.
pub fn is_lone(rest: &[u8]) -> bool
    ensures { result ≡ eqb (why (json_step 0 rest.now)) 10 }
{
    escapes::begins_lone(rest)
}
