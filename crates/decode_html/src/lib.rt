// The decoder of character references, html-escape's decode/html_entity: decode in the HTML contexts; and the first reference that it leaves.
#![tactic(auto)]

ghost use Rattle.std.specs.Prelude.{◌≡◌, [], ◌≤◌, MatchOption, length, drop};
ghost use Rattle.rules.specs.Bytes.{over};
ghost use Rattle.rules.specs.Moves.{through, result as result_of};
ghost use Rattle.rules.specs.References.{reference_step};
ghost use Rattle.rules.specs.Reasons.{lefts_in};
ghost use Rattle.rules.specs.Answers.{Measures};
ghost use Rattle.decode_html.specs.Taking.{NextLeft};

pub mod characters;
pub mod digits;
pub mod entity;

use rules::{Left, Measured};

// Measures the result of decode without writing it. Bytes before the next `&` are skipped together; a reference counts as the bytes of its value.
pub fn measure(text: &[u8]) -> Measured
    requires { length text.now ≤ 65536 }
    ensures { Measures result (through reference_step text.now) }
{
    let mut length: usize = 0;
    let mut references: usize = 0;
    let mut left: Option<Left> = None;
    let mut i: usize = 0;
    // A cursor: each turn moves by the length of what it read.
    while i < text.len() {
        if text[i] != b'&' {
            let next = base::find::find_byte(text, i, b'&');
            length += next - i;
            i = next;
            continue;
        }
        match entity::find_decoded_entity(text, i) {
            Ok(found) => {
                length += characters::value_length(found.value);
                references += 1;
                i = found.end;
            }
            Err(reason) => {
                left = Some(left.unwrap_or(Left { place: i, reason }));
                length += 1;
                i += 1;
            }
        }
    }
    Measured {
        length,
        place: i,
        replaced: references,
        left,
    }
}

// Writes the result of decode to the start of `output` and returns what `measure` does; the bytes after it keep their values.
pub fn write(text: &[u8], output: &mut [u8]) -> Measured
    requires { length (result_of (through reference_step text.now)) ≤ length output.old }
    ensures fact { Measures result (through reference_step text.now) }
    ensures output_after { output.new ≡ over (result_of (through reference_step text.now)) output.old }
{
    let mut at: usize = 0;
    let mut references: usize = 0;
    let mut left: Option<Left> = None;
    let mut i: usize = 0;
    // A cursor: each turn moves by the length of what it read.
    while i < text.len() {
        if text[i] != b'&' {
            let next = base::find::put_until(text, i, b'&', &mut output[at..]);
            at += next - i;
            i = next;
            continue;
        }
        match entity::find_decoded_entity(text, i) {
            Ok(found) => {
                at += characters::put_value(found.value, &mut output[at..]);
                references += 1;
                i = found.end;
            }
            Err(reason) => {
                left = Some(left.unwrap_or(Left { place: i, reason }));
                at += base::put(b"&", &mut output[at..]);
                i += 1;
            }
        }
    }
    Measured {
        length: at,
        place: i,
        replaced: references,
        left,
    }
}

// Finds the first reference from `from` on that decode leaves. Since no body has an `&`, each `&` is looked at.
pub fn next_left(text: &[u8], from: usize) -> Option<Left>
    requires { from ≤ length text.now }
    ensures { MatchOption result (lefts_in reference_step from (drop from text.now) ≡ []) (NextLeft text.now from) }
{
    let mut i = base::find::find_byte(text, from, b'&');
    // A cursor: each turn moves to the next `&`.
    while i < text.len() {
        if let Err(reason) = entity::find_decoded_entity(text, i) {
            return Some(Left { place: i, reason });
        }
        i = base::find::find_byte(text, i + 1, b'&');
    }
    None
}
