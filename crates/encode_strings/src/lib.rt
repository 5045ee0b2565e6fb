// Escapes a text for a string of a script, a style sheet or JSON.
#![tactic(auto)]

pub mod escapes;
mod growth;
pub mod rule;

ghost use Rattle.std.specs.Prelude.{◌≡◌, ◌+◌, ◌≤◌, ◌<◌, length};
ghost use Rattle.rules.specs.Bytes.{over};
ghost use Rattle.rules.specs.Contexts.{written_in};
ghost use Rattle.rules.specs.Encoding.{encode_step};
ghost use Rattle.rules.specs.Moves.{through, replaced};
ghost use Rattle.rules.specs.Answers.{Measures};
ghost use Rattle.rules.specs.Operations.{encode_of};
ghost use Rattle.encode_strings.specs.Strings.{Apart};

use rules::{Measured, Notation, Quotes};

// Returns the end of a part of at most `step` bytes from offset `at` on that splits no line separator: E2 in its last two bytes is left to the next.
fn cut(text: &[u8], at: usize, step: usize) -> usize
    requires { (at < length text.now) × (2 < step) }
    ensures { (at < result) × (result ≤ length text.now) × (result ≤ at + step) × Apart text.now result }
{
    if text.len() - at <= step {
        return text.len();
    }
    let end = at + step;
    if text[end - 1] == rule::SEPARATOR_LEAD {
        return end - 1;
    }
    if text[end - 2] == rule::SEPARATOR_LEAD {
        return end - 2;
    }
    end
}

// Measures the escaped text, part by part.
pub fn measure(notation: Notation, quotes: Quotes, text: &[u8]) -> Measured
    requires { length text.now ≤ 65536 }
    ensures { Measures result (through (encode_step (written_in notation quotes)) text.now) }
{
    let mut n: usize = 0;
    let mut places: usize = 0;
    let mut i: usize = 0;
    // A cursor: each turn moves by a part, whose end depends on its last bytes.
    while i < text.len() {
        let end = cut(text, i, 64);
        let part = growth::gained(notation, quotes, &text[i..end]);
        n += end - i + part.growth;
        places += part.replaced;
        i = end;
    }
    Measured::whole(n, i, places)
}

// Writes as `write` does, for a short part. One of which nothing is replaced is copied.
fn write_part(notation: Notation, quotes: Quotes, part: &[u8], output: &mut [u8]) -> Measured
    requires { (length part.now ≤ 64) × (length (encode_of (written_in notation quotes) part.now) ≤ length output.old) }
    ensures { Measures result (through (encode_step (written_in notation quotes)) part.now) × (output.new ≡ over (encode_of (written_in notation quotes) part.now) output.old) }
{
    let found = growth::count(notation, quotes, part);
    if growth::is_copied(notation, quotes, found, part) {
        return Measured::whole(base::put(part, output), part.len(), 0);
    }
    let written = escapes::write_bytes(notation, quotes, part, output);
    Measured::whole(
        written,
        part.len(),
        growth::places(notation, found, written - part.len()),
    )
}

// Writes the escaped text to the start of `output`, part by part, leaves the bytes after it as they were, and returns what `measure` does.
pub fn write(notation: Notation, quotes: Quotes, text: &[u8], output: &mut [u8]) -> Measured
    requires { (length text.now ≤ 65536) × (length (encode_of (written_in notation quotes) text.now) ≤ length output.old) }
    ensures { Measures result (through (encode_step (written_in notation quotes)) text.now) × (output.new ≡ over (encode_of (written_in notation quotes) text.now) output.old) }
{
    let mut at: usize = 0;
    let mut places: usize = 0;
    let mut i: usize = 0;
    // A cursor: each turn moves by a part, whose end depends on its last bytes.
    while i < text.len() {
        let end = cut(text, i, 32);
        let part = write_part(notation, quotes, &text[i..end], &mut output[at..]);
        at += part.length;
        places += part.replaced;
        i = end;
    }
    Measured::whole(at, i, places)
}
