// How the list is spelt: bytes, numbers and texts. What a function reads begins at a place of the
// list; it returns the place past what it read.
//
// A byte of a text stands for itself, but for these two:
//   \HH      the byte with this number, in two upper-case hex digits;
//   \*N,B;   N bytes more, each equal to the one B bytes before it.
// A text is spelt into a lent buffer, with its length so far beside: the program makes no allocation while it replays.
#![tactic(auto)]

ghost use Rattle.std.specs.Prelude.{◌<◌, IfSome};

// Returns the byte at a place, if the list has one there.
pub fn byte_at(list: &[u8], at: usize) -> Option<u8> {
    list.get(at).copied()
}

// Returns the place after a place.
pub fn after(at: usize) -> usize {
    at.saturating_add(1)
}

// Returns the place of the first line end from a place on, or the end of the list.
pub fn line_end(list: &[u8], at: usize) -> usize {
    for i in at..list.len() {
        if list[i] == b'\n' {
            return i;
        }
    }
    list.len().max(at)
}

// Returns the place of the first byte from a place on that is no letter.
pub fn past_letters(list: &[u8], at: usize) -> usize {
    for i in at..list.len() {
        if !list[i].is_ascii_alphabetic() {
            return i;
        }
    }
    list.len().max(at)
}

// Returns the value of a hex digit; only the upper-case letters are digits.
fn digit(b: u8) -> Option<u8>
    ensures { IfSome result (λ d. d < 16) }
{
    match b {
        b'0'..=b'9' => Some(b - b'0'),
        b'A'..=b'F' => Some(b - b'A' + 10),
        _ => None,
    }
}

// A number that was read: its value, if there was a digit, and the place past it.
#[derive(Clone, Copy)]
pub struct Number {
    pub value: Option<usize>,
    pub next: usize,
}

// Reads the decimal number at a place, of seven digits at most.
pub fn read_number(list: &[u8], at: usize) -> Number {
    let mut value = None;
    let mut next = at;
    for i in at..list.len() {
        let so_far = value.unwrap_or(0);
        match list[i] {
            d @ b'0'..=b'9' if so_far <= 999999 => {
                value = Some(so_far * 10 + usize::from(d - b'0'));
                next = i + 1;
            }
            _ => break,
        }
    }
    Number { value, next }
}

// What was read of a text that is spelt right: how long it is so far, and the place past what was
// read.
#[derive(Clone, Copy)]
pub struct Spelt {
    pub length: usize,
    pub next: usize,
}

// Puts one byte behind the `length` bytes that a buffer holds, where it has room.
fn put(b: u8, into: &mut [u8], length: usize, next: usize) -> Option<Spelt> {
    let place = into.get_mut(length)?;
    *place = b;
    Some(Spelt {
        length: after(length),
        next,
    })
}

// Puts `count` bytes behind the `length` bytes that a buffer holds, each equal to the one `back`
// bytes before it, and returns the new length. None where there is no such byte or no room.
fn repeat(into: &mut [u8], length: usize, count: usize, back: usize) -> Option<usize> {
    if back == 0 || length < back {
        return None;
    }
    let end = length.checked_add(count)?;
    if into.len() < end {
        return None;
    }
    for i in length..end {
        into[i] = into[i - back];
    }
    Some(end)
}

// Reads `N,B;` at a place and repeats.
fn repeated(list: &[u8], at: usize, into: &mut [u8], length: usize) -> Option<Spelt> {
    let count = read_number(list, at);
    let back = read_number(list, after(count.next));
    if byte_at(list, count.next)? != b',' || byte_at(list, back.next)? != b';' {
        return None;
    }
    let length = repeat(into, length, count.value?, back.value?)?;
    Some(Spelt {
        length,
        next: after(back.next),
    })
}

// Reads the two digits of a byte at a place.
fn hex(list: &[u8], at: usize, into: &mut [u8], length: usize) -> Option<Spelt> {
    let high = digit(byte_at(list, at)?)?;
    let low = digit(byte_at(list, after(at))?)?;
    put(high * 16 + low, into, length, after(after(at)))
}

// Reads what one byte, or one backslash and what belongs to it, stands for.
fn item(b: u8, list: &[u8], at: usize, into: &mut [u8], length: usize) -> Option<Spelt> {
    let next = after(at);
    if b != b'\\' {
        return put(b, into, length, next);
    }
    match byte_at(list, next)? {
        b'*' => repeated(list, after(next), into, length),
        _ => hex(list, next, into, length),
    }
}

// Reads the text that is spelt from a place up to the line's end into a buffer; `next` is the place
// of the line's end. None where it is not spelt right, or longer than the buffer.
pub fn text(list: &[u8], at: usize, into: &mut [u8]) -> Option<Spelt> {
    let mut i = at;
    let mut length = 0;
    // A cursor: each turn moves it by what it read.
    while i < list.len() && list[i] != b'\n' {
        let read = item(list[i], list, i, into, length)?;
        if read.next <= i {
            return None;
        }
        length = read.length;
        i = read.next;
    }
    Some(Spelt { length, next: i })
}
