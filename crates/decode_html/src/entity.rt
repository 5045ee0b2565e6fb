// The reader of the reference at an `&`.
// Text and the offset of the `&` stand in each contract: a caller has them from its cursor, for one call each.
ghost use Rattle.std.specs.Prelude.{cond, ◌≡◌, ◌≢◌, ◌+◌, ◌≤◌, ◌<◌, MatchResult, length, get_or};
ghost use Rattle.rules.specs.References.{reference_step};
ghost use Rattle.decode_html.specs.Taking.{Gives, Stays};
ghost use Rattle.decode_html.specs.Bodies.{Begun, EndsAt, Known, known_value};

use crate::digits;
use rules::{DecodedEntity, DecodedEntityValue, Reason};

// Looks at the byte after the `&` at `start`: a body begins there unless there is none, or it is `&` or `;`.
fn check_start(text: &[u8], start: usize) -> Result<(), Reason>
    requires { (start < length text.now) × (get_or text.now start 0 ≡ 38) }
    ensures { MatchResult result (λ _. Begun text.now start) (Stays text.now start) }
{
    match text.get(start + 1) {
        None => Err(Reason::NoEnd),
        Some(b'&') => Err(Reason::NoEnd),
        Some(b';') => Err(Reason::Empty),
        Some(_) => Ok(()),
    }
}

// Returns `size` if the test holds, else 0.
fn length_if(test: bool, size: usize) -> usize
    ensures { (result ≡ cond test size 0) × (result ≤ size) }
{
    if test {
        return size;
    }
    0
}

// Returns the length of the reference at `start` if it is `&lt;`, `&gt;` or `&amp;`, the most frequent ones, else 0. It searches neither the `;` nor the table,
// and adds two products of tests instead of branching, so that text full of references costs no wrongly guessed branch: an Option made here costs two.
fn known_length(text: &[u8], start: usize) -> usize
    requires { start ≤ length text.now }
    ensures { result ≢ 0 → Known text.now start result }
{
    if text.len() - start < 5 {
        return 0;
    }
    let a = text[start + 1];
    let b = text[start + 2];
    let c = text[start + 3];
    let d = text[start + 4];
    let angle = ((a == b'l') | (a == b'g')) & ((b == b't') & (c == b';'));
    let ampersand = (a == b'a') & ((b == b'm') & ((c == b'p') & (d == b';')));
    length_if(angle, 4) + length_if(ampersand, 5)
}

// Returns the packed value of such a reference by the first letter of its name.
fn known_value(letter: u8) -> u64
    ensures { result ≡ known_value letter }
{
    match letter {
        b'l' => b'<' as u64,
        b'g' => b'>' as u64,
        _ => b'&' as u64,
    }
}

// Returns the offset of the `;` that ends a body, unless there is none or an `&` comes first. It skips sixteen bytes at a time.
fn far_end(text: &[u8], from: usize) -> Option<usize>
    requires { from ≤ length text.now }
    ensures { EndsAt text.now from result }
{
    let amp = base::find::find_byte(text, from, b'&');
    let end = from + base::find::find_byte(&text[from..amp], 0, b';');
    if end == amp {
        return None;
    }
    Some(end)
}

// Returns the same as `far_end`: the first sixteen bytes are looked at one by one, since most references end there.
fn body_end(text: &[u8], from: usize) -> Option<usize>
    requires { from ≤ length text.now }
    ensures { EndsAt text.now from result }
{
    let most = (text.len() - from).min(16);
    for i in from..from + most {
        match text[i] {
            b';' => return Some(i),
            b'&' => return None,
            _ => {}
        }
    }
    far_end(text, from + most)
}

// Reads the reference of a number at `start`, which begins with `&#`.
fn find_number(text: &[u8], start: usize) -> Result<DecodedEntity, Reason>
    requires { (get_or text.now start 0 ≡ 38) × Begun text.now start × (get_or text.now (start + 1) 0 ≡ 35) }
    ensures { MatchResult result (Gives reference_step text.now start) (Stays text.now start) }
{
    let digits = start + 2;
    let end = body_end(text, digits).ok_or(Reason::NoEnd)?;
    let value = digits::decode_number(&text[digits..end])?;
    Ok(DecodedEntity {
        start,
        end: end + 1,
        value,
    })
}

// Reads the reference of a name at `start`; the first byte of its body is known to be neither `&` nor `;` nor `#`.
fn find_name(text: &[u8], start: usize) -> Result<DecodedEntity, Reason>
    requires { (get_or text.now start 0 ≡ 38) × Begun text.now start × (get_or text.now (start + 1) 0 ≡ 35 → ⊥) }
    ensures { MatchResult result (Gives reference_step text.now start) (Stays text.now start) }
{
    let name = start + 1;
    let end = body_end(text, start + 2).ok_or(Reason::NoEnd)?;
    let value = names::decode_named_entity(&text[name..end]).ok_or(Reason::UnknownName)?;
    Ok(DecodedEntity {
        start,
        end: end + 1,
        value,
    })
}

// Reads the reference at `start` whose body begins with a byte that does not end it.
fn find_body(text: &[u8], start: usize) -> Result<DecodedEntity, Reason>
    requires { (get_or text.now start 0 ≡ 38) × Begun text.now start }
    ensures { MatchResult result (Gives reference_step text.now start) (Stays text.now start) }
{
    let letter = text[start + 1];
    if letter == b'#' {
        return find_number(text, start);
    }
    let length = known_length(text, start);
    if length == 0 {
        return find_name(text, start);
    }
    Ok(DecodedEntity {
        start,
        end: start + length,
        value: DecodedEntityValue::Named(known_value(letter)),
    })
}

// Reads the reference that begins with the `&` at `start`; or returns why it is left as it is, and then the `&` is copied.
pub fn find_decoded_entity(text: &[u8], start: usize) -> Result<DecodedEntity, Reason>
    requires { (start < length text.now) × (get_or text.now start 0 ≡ 38) }
    ensures { MatchResult result (Gives reference_step text.now start) (Stays text.now start) }
{
    check_start(text, start)?;
    find_body(text, start)
}
