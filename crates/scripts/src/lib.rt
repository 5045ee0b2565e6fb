// Where the text of a script element ends. The rule has eighteen states and a step for each byte; the code has three modes, goes from one `<` (or, where
// the text is escaped, dash) to the next, and looks at what stands there.
// A tag's name is compared letter by letter in either case: std's comparison without case takes slices of one length, and the text may be shorter.
#![tactic(auto)]

ghost use Rattle.std.specs.Prelude.{false, ◌&&◌, cond, ◌≡◌, ◌≤◌, ◌<◌, length};
ghost use Rattle.rules.specs.Bytes.{is};
ghost use Rattle.rules.specs.ScriptData.{lower, ends_name, spells, ends, dashed, turn, closing_tag};
ghost use Rattle.rules.specs.Closings.{closing_at, closing_of};
ghost use Rattle.rules.specs.declared.ScriptMode.TheVariants.{Plain};
ghost use Rattle.base.specs.First.{Free};
ghost use Rattle.scripts.specs.Marks.{letter_of, dash_of, mark, mark_at, Passed, found_at};

use rules::{Closing, PASSED, ScriptMode, TEXT_LIMIT, TOO_LONG};

// The bytes that are tested together: one vector.
const BLOCK: usize = 16;

// Reports whether the byte ends the name of a tag: tab, line feed, form feed, carriage return, space, `/`, `>`.
fn ends_name(b: u8) -> bool
    ensures { result ≡ ends_name b }
{
    matches!(b, 9 | 10 | 12 | 13 | b' ' | b'/' | b'>')
}

// Reports whether `rest` starts with `name`, its letters in either case, and a byte that ends a name.
fn starts_with_name(name: &[u8], rest: &[u8]) -> bool
    ensures { result ≡ spells name.now rest.now }
{
    for (i, a) in name.iter().enumerate() {
        if rest.len() <= i {
            return false;
        }
        if rest[i].to_ascii_lowercase() != *a {
            return false;
        }
    }
    match rest.get(name.len()) {
        Some(b) => ends_name(*b),
        None => false,
    }
}

// Returns the byte after a `<` that matters in the mode, beside `/` and `S`.
fn letter_of(mode: ScriptMode) -> u8
    ensures { result ≡ letter_of mode }
{
    match mode {
        ScriptMode::Plain => b'!',
        ScriptMode::Once => b's',
        ScriptMode::Twice => b'/',
    }
}

// Returns the byte before `->` that matters in the mode.
fn dash_of(mode: ScriptMode) -> u8
    ensures { result ≡ dash_of mode }
{
    match mode {
        ScriptMode::Plain => b'<',
        ScriptMode::Once => b'-',
        ScriptMode::Twice => b'-',
    }
}

// Returns 0 if the mode may change, or the element end, at three bytes. Bytes are compared by xor, which is 0 for equal ones: the minimum of several is 0 if
// one of them is, their `or` if all are. A loop over such numbers compiles to vector code on every processor; one over booleans does not.
fn far(letter: u8, dash: u8, a: u8, b: u8, c: u8) -> u8
    ensures { 0 < result → mark letter dash a b c ≡ false }
{
    let next = (b ^ b'/').min(b ^ b'S').min(b ^ letter);
    ((a ^ b'<') | next).min((a ^ dash) | (b ^ b'-') | (c ^ b'>'))
}

// Reports whether the mode may change, or the element end, at one of the first sixteen bytes of a block, which has two more. The loop has no early exit and
// as many turns for every block, so that it becomes vector code.
fn has_mark(block: &[u8], letter: u8, dash: u8) -> bool
    requires { 18 ≤ length block.now }
    ensures { result ≡ false → Free (mark_at letter dash block.now) 0 16 }
{
    let mut m: u8 = 255;
    for j in 0..BLOCK {
        m = m.min(far(letter, dash, block[j], block[j + 1], block[j + 2]));
    }
    m == 0
}

// Skips blocks in which nothing happens from `from` on and returns the start of the first other one, or of what is left after the last block.
fn skip_blocks(text: &[u8], from: usize, mode: ScriptMode) -> usize
    requires { from ≤ length text.now }
    ensures { Passed mode text.now from result }
{
    let letter = letter_of(mode);
    let dash = dash_of(mode);
    let mut i = from;
    // A cursor: the two bytes after a block are read with it, so that blocks overlap.
    while BLOCK + 2 <= text.len() - i {
        if has_mark(&text[i..i + BLOCK + 2], letter, dash) {
            return i;
        }
        i += BLOCK;
    }
    i
}

// Returns an offset at or after `from` before which nothing happens: of the next `<` or dash, or the text's length.
fn next_mark(text: &[u8], from: usize, mode: ScriptMode) -> usize
    requires { from ≤ length text.now }
    ensures { Passed mode text.now from result }
{
    let start = skip_blocks(text, from, mode);
    match text[start..].iter().position(|b| *b == b'<' || *b == b'-') {
        Some(k) => start + k,
        None => text.len(),
    }
}

// Reports whether the element ends at the byte `b`, where `rest` follows.
fn is_end(mode: ScriptMode, b: u8, rest: &[u8]) -> bool
    ensures { result ≡ ends mode b rest.now }
{
    if b != b'<' {
        return false;
    }
    match mode {
        ScriptMode::Plain => starts_with_name(b"/script", rest),
        ScriptMode::Once => starts_with_name(b"/script", rest),
        ScriptMode::Twice => false,
    }
}

// Returns the mode after the byte `b` of a plain text, where `rest` follows: `<!--` escapes it.
fn after_plain(b: u8, rest: &[u8]) -> ScriptMode
    ensures { result ≡ turn Plain b rest.now }
{
    if b != b'<' {
        return ScriptMode::Plain;
    }
    if base::prefix::starts(b"!--", rest) {
        return ScriptMode::Once;
    }
    ScriptMode::Plain
}

// Returns the mode after the byte `b` of a text that is escaped in `mode`: `found` if it begins the tag, plain if it begins `-->`.
fn after_escaped(mode: ScriptMode, tag: &[u8], found: ScriptMode, b: u8, rest: &[u8]) -> ScriptMode
    ensures { result ≡ cond (is "<" b && spells tag.now rest.now) found (dashed mode b rest.now) }
{
    if b == b'<' {
        if starts_with_name(tag, rest) {
            return found;
        }
        return mode;
    }
    if b != b'-' {
        return mode;
    }
    if base::prefix::starts(b"->", rest) {
        return ScriptMode::Plain;
    }
    mode
}

// Returns the mode after the byte `b`, where `rest` follows.
fn next_mode(mode: ScriptMode, b: u8, rest: &[u8]) -> ScriptMode
    ensures { result ≡ turn mode b rest.now }
{
    match mode {
        ScriptMode::Plain => after_plain(b, rest),
        ScriptMode::Once => after_escaped(ScriptMode::Once, b"script", ScriptMode::Twice, b, rest),
        ScriptMode::Twice => after_escaped(
            ScriptMode::Twice,
            b"/script",
            ScriptMode::Once,
            b,
            rest,
        ),
    }
}

// Returns the offset of the `<` of the first end tag that ends the element.
pub fn find_end(text: &[u8]) -> Option<usize>
    ensures { found_at result ≡ closing_tag text.now }
{
    let mut mode = ScriptMode::Plain;
    let mut i: usize = 0;
    // A cursor: each turn goes on behind the byte that was looked at.
    while i < text.len() {
        let e = next_mark(text, i, mode);
        if e == text.len() {
            return None;
        }
        if is_end(mode, text[e], &text[e + 1..]) {
            return Some(e);
        }
        mode = next_mode(mode, text[e], &text[e + 1..]);
        i = e + 1;
    }
    None
}

// Returns the answer where the text ends at an end tag, or does not.
fn answer(found: Option<usize>) -> Closing
    ensures { result ≡ closing_at (found_at found) }
{
    match found {
        Some(place) => Closing {
            status: PASSED,
            found: 1,
            place: place,
        },
        None => Closing {
            status: PASSED,
            found: 0,
            place: 0,
        },
    }
}

// Returns where the text of a script element ends: the offset of the `<` of the first end tag that leaves the HTML Standard's script data states.
pub fn closing_tag(text: &[u8]) -> Closing
    ensures { result ≡ closing_of text.now }
{
    if TEXT_LIMIT < text.len() {
        return Closing {
            status: TOO_LONG,
            found: 0,
            place: 0,
        };
    }
    let valid = utf8::valid_to(text);
    if valid < text.len() {
        return Closing {
            status: utf8::status(&text[valid..]),
            found: 0,
            place: valid,
        };
    }
    answer(find_end(text))
}
