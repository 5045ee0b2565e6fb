// Reads the header lines of a request: a field such as `op=`, a name, and byte 0A.
ghost use Rattle.std.specs.Prelude.{◌++◌, ◌≡◌, ◌==◌, ◌≤◌, ◌<◌, length};
ghost use Rattle.std.specs.List.{position};
ghost use Rattle.rules.specs.Bytes.{stands};
ghost use Rattle.rules.specs.Program.{context_line};
ghost use Rattle.rules.specs.declared.Operation.{Operation};
ghost use Rattle.requests.specs.Asked.{call_at, text_start};
ghost use Rattle.requests.specs.Lines.{lines_of, line_length, line_found, line_read};

use lintelrye::labels;

// A header line that was read: the number of the name that it has, and its length.
#[derive(Clone, Copy)]
pub struct Line {
    pub number: u32,
    pub length: usize,
}

// Returns the place of the first 0A, if there is one.
fn line_feed(names: &[u8]) -> Option<usize>
    ensures { result ≡ position (λ b. b == 10) names.now }
{
    names.iter().position(|b| *b == b'\n')
}

// Returns the length of the first line of `names`: with its 0A, or all of them.
fn first_line(names: &[u8]) -> usize
    requires { 0 < length names.now }
    ensures { (result ≡ line_length names.now) × (0 < result) × (result ≤ length names.now) }
{
    match line_feed(names) {
        Some(n) => n + 1,
        None => names.len(),
    }
}

// Reports whether `text` begins with `field` and `name`.
fn is_line(field: &[u8], name: &[u8], text: &[u8]) -> bool
    ensures { result ≡ stands (field.now ++ name.now) text.now }
{
    if !base::prefix::starts(field, text) {
        return false;
    }
    let n = field.len();
    base::prefix::starts(name, &text[n..])
}

// Reads the header line at the start of `text`: `field`, and one of `names`, which are a line each.
// None where there is no such line.
pub fn find_line(names: &[u8], field: &[u8], text: &[u8]) -> Option<Line>
    requires { length names.now ≤ 65535 }
    ensures { line_read result ≡ line_found field.now (lines_of names.now) text.now }
{
    let mut at = 0;
    let mut number = 0;
    // A cursor: each turn moves it by the length of a line.
    while at < names.len() {
        let end = at + first_line(&names[at..]);
        if is_line(field, &names[at..end], text) {
            let length = field.len() + (end - at);
            return Some(Line { number, length });
        }
        at = end;
        number += 1;
    }
    None
}

// Reads a request from the line of its context on: the number of the context, and how far the
// header goes, to behind `text=`. None where it is no request.
pub fn find_text(request: &[u8]) -> Option<Line>
    ensures { ((o : Operation) → call_at o request.now result ≡ context_line o request.now) × (text_start result ≤ length request.now) }
{
    let line = find_line(&labels::CONTEXT_NAMES, b"context=", request)?;
    if !base::prefix::starts(b"text=", &request[line.length..]) {
        return None;
    }
    Some(Line {
        number: line.number,
        length: line.length + 5,
    })
}
