// Tests of what a text starts with: given bytes, or the name of a closing tag with the byte that ends it.
ghost use Rattle.std.specs.Prelude.{◌&&◌, ◌||◌, ◌≡◌};
ghost use Rattle.rules.specs.Bytes.{stands, one_of};
ghost use Rattle.rules.specs.Encoding.{any_case, terminators, closes, closes_at_end};

// Reports whether `rest` starts with `pattern`.
pub fn starts(pattern: &[u8], rest: &[u8]) -> bool
    ensures { result ≡ stands pattern.now rest.now }
{
    rest.starts_with(pattern)
}

// Reports whether `b` is the byte `a`, or the upper case of the lower-case letter `a`, which is 32 less.
pub fn is_either_case(a: u8, b: u8) -> bool
    ensures { result ≡ one_of (any_case a) b }
{
    b == a || b == a.to_ascii_uppercase()
}

// Reports whether the byte ends the name of a tag: `/`, `>`, 9 to 13 and 28 to 32.
fn is_terminator(b: u8) -> bool
    ensures { result ≡ one_of terminators b }
{
    matches!(b, b'/' | b'>' | b'\t'..=b'\r' | 28..=b' ')
}

// Reports whether `rest` starts with `name`, its letters in either case, and then a terminator, or its end if `last` says that the end counts as one.
pub fn closes_with(name: &[u8], last: bool, rest: &[u8]) -> bool
    ensures { result ≡ (closes name.now rest.now || (last && closes_at_end name.now rest.now)) }
{
    for (i, a) in name.iter().enumerate() {
        if rest.len() <= i {
            return false;
        }
        if !is_either_case(*a, rest[i]) {
            return false;
        }
    }
    match rest.get(name.len()) {
        Some(b) => is_terminator(*b),
        None => last,
    }
}
