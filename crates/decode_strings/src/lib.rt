// decode of script and style strings: the escapes of html-escape's decode/element/quoted.rs.
#![tactic(auto)]

ghost use Rattle.std.specs.Prelude.{◌++◌, ◌≡◌, ◌≤◌, length};
ghost use Rattle.rules.specs.Bytes.{ascii, over};
ghost use Rattle.rules.specs.Contexts.{string_of};
ghost use Rattle.rules.specs.Encoding.{closes};
ghost use Rattle.rules.specs.Moves.{through, before};
ghost use Rattle.rules.specs.Answers.{escape_move, Measures};
ghost use Rattle.rules.specs.Escapes.{after_less, escape_by};
ghost use Rattle.rules.specs.Operations.{decode_step, decode_of};
ghost use Rattle.decode_strings.specs.Finds.{Within};
ghost use Rattle.decode_strings.specs.Strings.{name_of, unslashed_rows};

use rules::{Escape, Language, Measured, Quotes};

pub mod digits;
pub mod rows;

// Reports whether `rest` starts with `\/`, the name of the element and a terminator.
fn closes_element(language: Language, rest: &[u8]) -> bool
    ensures { result ≡ closes (ascii "\\/" ++ name_of language) rest.now }
{
    match language {
        Language::Script => base::prefix::closes_with(b"\\/script", false, rest),
        Language::Style => base::prefix::closes_with(b"\\/style", false, rest),
    }
}

// Reads one of the two escapes of older pages, which count after a `<` in the input: `\!--` yields `!` for the `\!`, and `\/` yields `/` before the
// element's name and a terminator. In line, since most bytes before an escape are no `<`.
#[inline(always)]
fn after_less(language: Language, before: u8, rest: &[u8]) -> Option<Escape>
    ensures { (escape_move rest.now result ≡ after_less (name_of language) before rest.now) × Within result rest.now }
{
    if before != b'<' {
        return None;
    }
    if base::prefix::starts(b"\\!--", rest) {
        return Some(Escape {
            taken: 2,
            character: b'!' as u32,
        });
    }
    if closes_element(language, rest) {
        return Some(Escape {
            taken: 2,
            character: b'/' as u32,
        });
    }
    None
}

// Reads the escape at the backslash that starts `rest`, the first kind that matches, except a backslash before a byte of `is_slashed`. `before` is the
// byte before the backslash in the input.
#[inline(always)]
fn read_escape(language: Language, before: u8, rest: &[u8]) -> Option<Escape>
    ensures { (escape_move rest.now result ≡ escape_by (name_of language) (unslashed_rows language) before rest.now) × Within result rest.now }
{
    if let Some(escape) = rows::unslashed(language, rest) {
        return Some(escape);
    }
    after_less(language, before, rest)
}

// Returns the byte before offset `i` of the text, 0 at its start.
fn byte_before(text: &[u8], i: usize) -> u8
    requires { i ≤ length text.now }
    ensures { result ≡ before text.now i }
{
    if i == 0 {
        return 0;
    }
    text[i - 1]
}

// Measures the result of decode without writing it. A backslash before a byte of `is_slashed`, the most frequent escape, is read first: that takes
// two bytes and no call.
pub fn measure(language: Language, quotes: Quotes, text: &[u8]) -> Measured
    requires { length text.now ≤ 65536 }
    ensures { Measures result (through (decode_step (string_of language quotes)) text.now) }
{
    let mut length: usize = 0;
    let mut escapes: usize = 0;
    let mut i: usize = 0;
    // A cursor: each turn moves by the length of what it read.
    while i < text.len() {
        if text[i] != b'\\' {
            let e = base::find::find_byte(text, i, b'\\');
            length += e - i;
            i = e;
            continue;
        }
        if let Some(_) = rows::slashed(quotes, &text[i..]) {
            length += 1;
            escapes += 1;
            i += 2;
            continue;
        }
        let Some(escape) = read_escape(language, byte_before(text, i), &text[i..]) else {
            length += 1;
            i += 1;
            continue;
        };
        length += base::chars::char_length(escape.character);
        escapes += 1;
        i += escape.taken;
    }
    Measured::whole(length, i, escapes)
}

// Writes the result of decode to the start of `output` and leaves the bytes after it as they were. Returns what `measure` does.
pub fn write(language: Language, quotes: Quotes, text: &[u8], output: &mut [u8]) -> Measured
    requires { length (decode_of (string_of language quotes) text.now) ≤ length output.old }
    ensures { Measures result (through (decode_step (string_of language quotes)) text.now) × (output.new ≡ over (decode_of (string_of language quotes) text.now) output.old) }
{
    let mut at: usize = 0;
    let mut escapes: usize = 0;
    let mut i: usize = 0;
    // A cursor: each turn moves by the length of what it read.
    while i < text.len() {
        if text[i] != b'\\' {
            let e = base::find::put_until(text, i, b'\\', &mut output[at..]);
            at += e - i;
            i = e;
            continue;
        }
        if let Some(b) = rows::slashed(quotes, &text[i..]) {
            at += base::put(&[b], &mut output[at..]);
            escapes += 1;
            i += 2;
            continue;
        }
        let before = byte_before(text, i);
        let Some(escape) = read_escape(language, before, &text[i..]) else {
            let past = i + 1;
            at += base::put(&text[i..past], &mut output[at..]);
            i = past;
            continue;
        };
        at += base::chars::put_char(escape.character, &mut output[at..]);
        escapes += 1;
        i += escape.taken;
    }
    Measured::whole(at, i, escapes)
}
