// browse in the HTML contexts: references by the HTML Standard's character reference states, in text and in the value of an attribute.
// Text and the offset of the `&` stand in each contract: a type around them would be taken apart where decode's reader is asked first.
#![tactic(auto)]

ghost use Rattle.std.specs.Prelude.{◌≡◌, ◌+◌, ◌≤◌, ◌<◌, MatchOption, length, drop, get_or};
ghost use Rattle.rules.specs.Bytes.{over};
ghost use Rattle.rules.specs.Moves.{through, result as result_of};
ghost use Rattle.rules.specs.Browsing.{goes_on, browse_step};
ghost use Rattle.rules.specs.Answers.{Measures};
ghost use Rattle.rules.specs.declared.Kind.{Kind};
ghost use Rattle.decode_html.specs.Taking.{Gives};
ghost use Rattle.browse_html.specs.Finding.{Named, Unended, Finds, entity_at, blocked_in};

mod digits;

use rules::{DecodedEntity, DecodedEntityValue, Kind, Measured};

// A number or a name without `;`, which stand for one character: where it ends, and the number of the character.
#[derive(Clone, Copy)]
pub struct Single {
    pub end: usize,
    pub character: u32,
}

// Reports whether `=` or an ASCII letter or digit stands at an offset.
fn goes_on(text: &[u8], at: usize) -> bool
    requires { at ≤ length text.now }
    ensures { result ≡ goes_on (drop at text.now) }
{
    match text.get(at) {
        None => false,
        Some(b'=') => true,
        Some(byte) => base::is_letter_or_digit(*byte),
    }
}

// Reports whether a name without `;` that ends at an offset is left as it is: in an attribute, before `=` or an ASCII letter or digit.
fn is_blocked(kind: Kind, text: &[u8], at: usize) -> bool
    requires { at ≤ length text.now }
    ensures { result ≡ blocked_in kind (drop at text.now) }
{
    match kind {
        Kind::InText => false,
        Kind::InAttribute => goes_on(text, at),
    }
}

// Reads the name with its `;` behind the `&` at `start`, as decode's reader does. It is longer than any without, so that it goes first.
fn find_ended(text: &[u8], start: usize) -> Option<DecodedEntity>
    requires { (start < length text.now) × (get_or text.now start 0 ≡ 38) }
    ensures { MatchOption result (Unended text.now start) (λ found. (kind : Kind) → Gives (browse_step kind) text.now start found) }
{
    if !base::is_letter_or_digit(*text.get(start + 1)?) {
        return None;
    }
    let Ok(found) = decode_html::entity::find_decoded_entity(text, start) else {
        return None;
    };
    let value = found.value;
    Some(DecodedEntity {
        start,
        end: found.end,
        value,
    })
}

// Reads the name without `;` behind the `&` at `start`, where no name with its `;` stands.
fn find_bare(kind: Kind, text: &[u8], start: usize) -> Option<Single>
    requires { (start < length text.now) × (get_or text.now start 0 ≡ 38) × Named (drop (start + 1) text.now) }
    ensures { Finds kind text.now start (entity_at start result) }
{
    let first = start + 1;
    let name = names_bare::find(&text[first..])?;
    let end = first + name.length;
    if is_blocked(kind, text, end) {
        return None;
    }
    Some(Single {
        end,
        character: name.character,
    })
}

// Reads the number or the name without `;` behind the `&` at `start`, where no name with its `;` stands.
fn find_single(kind: Kind, text: &[u8], start: usize) -> Option<Single>
    requires { (start < length text.now) × (get_or text.now start 0 ≡ 38) × Unended text.now start }
    ensures { Finds kind text.now start (entity_at start result) }
{
    match text.get(start + 1) {
        Some(b'#') => digits::find_number(text, start),
        _ => find_bare(kind, text, start),
    }
}

// Reads the reference that begins with the `&` at `start`, if there is one. In line in the loops that call it, where a call costs about a sixth more instructions.
#[inline(always)]
fn find_reference(kind: Kind, text: &[u8], start: usize) -> Option<DecodedEntity>
    requires { (start < length text.now) × (get_or text.now start 0 ≡ 38) }
    ensures { Finds kind text.now start result }
{
    match find_ended(text, start) {
        Some(found) => Some(found),
        None => {
            let single = find_single(kind, text, start)?;
            Some(DecodedEntity {
                start,
                end: single.end,
                value: DecodedEntityValue::Character(single.character),
            })
        }
    }
}

// Measures the result of browse without writing it. Bytes before the next `&` are skipped together; a reference counts as the bytes of its value, the `&`
// of one that is left as one byte.
pub fn measure(kind: Kind, text: &[u8]) -> Measured
    requires { length text.now ≤ 65536 }
    ensures { Measures result (through (browse_step kind) text.now) }
{
    let mut length: usize = 0;
    let mut references: usize = 0;
    let mut i: usize = 0;
    // A cursor: each turn moves by the length of what it read.
    while i < text.len() {
        if text[i] != b'&' {
            let next = base::find::find_byte(text, i, b'&');
            length += next - i;
            i = next;
            continue;
        }
        match find_reference(kind, text, i) {
            Some(found) => {
                length += decode_html::characters::value_length(found.value);
                references += 1;
                i = found.end;
            }
            None => {
                length += 1;
                i += 1;
            }
        }
    }
    Measured::whole(length, i, references)
}

// Writes the result of browse to the start of `output` and returns what `measure` does; the bytes after it keep their values.
pub fn write(kind: Kind, text: &[u8], output: &mut [u8]) -> Measured
    requires { length (result_of (through (browse_step kind) text.now)) ≤ length output.old }
    ensures fact { Measures result (through (browse_step kind) text.now) }
    ensures output_after { output.new ≡ over (result_of (through (browse_step kind) text.now)) output.old }
{
    let mut at: usize = 0;
    let mut references: usize = 0;
    let mut i: usize = 0;
    // A cursor: each turn moves by the length of what it read.
    while i < text.len() {
        if text[i] != b'&' {
            let next = base::find::put_until(text, i, b'&', &mut output[at..]);
            at += next - i;
            i = next;
            continue;
        }
        match find_reference(kind, text, i) {
            Some(found) => {
                at += decode_html::characters::put_value(found.value, &mut output[at..]);
                references += 1;
                i = found.end;
            }
            None => {
                at += base::put(b"&", &mut output[at..]);
                i += 1;
            }
        }
    }
    Measured::whole(at, i, references)
}
