// One character: what is written for it, a reference above 7F, and what `quoted` writes below.
// The room of 32 bytes stands in each contract: it is an array of its caller, of which the parts of a reference are written one behind the other.
// So does the limit of a character's number: it is an `u32`, and Rust's char would exclude surrogates, which no caller has to test for.
ghost use Rattle.std.specs.Prelude.{cond, List, [], ◌∷◌, ◌++◌, ◌≡◌, ℕ, ◌+◌, ◌-◌, ◌/◌, ◌≤◌, ◌<◌, eqb, length, drop, get_or};
ghost use Rattle.rules.specs.Tables.{hex_digit, numeral};
ghost use Rattle.rules.specs.Bytes.{ascii, over};
ghost use Rattle.rules.specs.Utf8.{IsText, utf8};
ghost use Rattle.rules.specs.Ascii.{name_of, refer_to};
ghost use Rattle.rules.specs.Browsing.{given};
ghost use Rattle.names_written.specs.Ties.{Puts};
ghost use Rattle.rules.specs.Moves.{through, replaced};
ghost use Rattle.rules.specs.Encoding.{encode_step};
ghost use Rattle.rules.specs.Operations.{encode_of};
ghost use Rattle.rules.specs.declared.Context.TheVariants.{InAscii};
ghost use Rattle.encode_ascii.specs.Wide.{Reads, digits, quoted_unit, PutsNext};

// The number of a character and how many bytes it has.
#[derive(Clone, Copy)]
pub struct Character {
    pub code: u32,
    pub width: usize,
}

// Returns the six low bits of a byte after the first of a character.
fn low_bits(byte: u8) -> u32
    requires { 0x80 ≤ byte }
    ensures { result + 0x80 ≡ byte }
{
    (byte - 0x80) as u32
}

// Reads the character above 7F that stands at offset `at` of a text which is valid from there on.
fn read(text: &[u8], at: usize) -> Character
    requires { (at < length text.now) × (0x80 ≤ get_or text.now at 0) × IsText (drop at text.now) }
    ensures { Reads (drop at text.now) result }
{
    let lead = text[at];
    let second = low_bits(text[at + 1]);
    if lead < 0xE0 {
        return Character {
            code: (lead as u32 - 0xC0) * 64 + second,
            width: 2,
        };
    }
    let third = low_bits(text[at + 2]);
    if lead < 0xF0 {
        return Character {
            code: (lead as u32 - 0xE0) * 4096 + second * 64 + third,
            width: 3,
        };
    }
    let fourth = low_bits(text[at + 3]);
    Character {
        code: (lead as u32 - 0xF0) * 262144 + second * 4096 + third * 64 + fourth,
        width: 4,
    }
}

// Returns the upper-case hex digit of a number below sixteen, by the library's one table of them.
fn digit(n: u32) -> u8
    requires { n < 16 }
    ensures { result ≡ hex_digit n }
{
    base::hex_digit(n as u8)
}

// Writes the last digit of a number whose digits before it are the `at` bytes at the start of `room`, unless the number is 0; returns how many digits there are
// then. `most` is how many there can be.
fn put_digit(most: usize, n: u32, at: usize, room: &mut [u8]) -> usize
    requires { (1 ≤ most) × (most ≤ 6) × (at < most) × (at ≡ length (digits (most - 1) (n / 16))) × (6 ≤ length room.old) }
    ensures { (result ≡ length (digits most n)) × (result ≤ most) × ((out : List ℕ) → 6 ≤ length out → room.old ≡ over (digits (most - 1) (n / 16)) out → room.new ≡ over (digits most n) out) }
{
    if n == 0 {
        return at;
    }
    room[at] = digit(n % 16);
    at + 1
}

// Writes the hex digits of the number of a character, without leading zeros, to the start of `room` and returns how many; the rest keeps its values.
fn put_digits(n: u32, room: &mut [u8]) -> usize
    requires { (1 ≤ n) × (n ≤ 0x10FFFF) × (6 ≤ length room.old) }
    ensures { (result ≡ length (numeral hex_digit 16 6 n)) × (room.new ≡ over (numeral hex_digit 16 6 n) room.old) × (result ≤ 6) }
{
    let first = put_digit(1, n / 1048576, 0, room);
    let second = put_digit(2, n / 65536, first, room);
    let third = put_digit(3, n / 4096, second, room);
    let fourth = put_digit(4, n / 256, third, room);
    let fifth = put_digit(5, n / 16, fourth, room);
    put_digit(6, n, fifth, room)
}

// Writes `&#x` and the digits of the number of a character to the start of `room` and returns how many bytes they are; the rest keeps its values.
fn put_hex(code: u32, room: &mut [u8]) -> usize
    requires { (1 ≤ code) × (code ≤ 0x10FFFF) × (32 ≤ length room.old) }
    ensures { Puts (ascii "&#x" ++ numeral hex_digit 16 6 code) result room.old room.new × (result ≤ 9) }
{
    let at = base::put(b"&#x", room);
    at + put_digits(code, &mut room[at..])
}

// Writes the reference to a character by its number.
fn put_number(code: u32, room: &mut [u8]) -> usize
    requires { (1 ≤ code) × (code ≤ 0x10FFFF) × (32 ≤ length room.old) }
    ensures { Puts ((ascii "&#x" ++ numeral hex_digit 16 6 code) ++ ascii ";") result room.old room.new × (result ≤ 22) }
{
    let at = put_hex(code, room);
    at + base::put(b";", &mut room[at..])
}

// Writes `&` and the name of a character above 7F, if it has one.
fn put_open(code: u32, room: &mut [u8]) -> usize
    requires { (0x80 ≤ code) × (code ≤ 0x10FFFF) × (32 ≤ length room.old) }
    ensures { Puts (ascii "&" ++ given (name_of (utf8 code))) result room.old room.new × (result ≤ 21) }
{
    let at = base::put(b"&", room);
    at + names_written::put_name(code, &mut room[at..])
}

// Writes the reference to a character above 7F to the start of `room` and returns its length, at most 22; the rest keeps its values.
pub fn put_reference(code: u32, room: &mut [u8]) -> usize
    requires { (0x80 ≤ code) × (code ≤ 0x10FFFF) × (32 ≤ length room.old) }
    ensures { Puts (refer_to (utf8 code)) result room.old room.new × (result ≤ 22) }
{
    let at = put_open(code, room);
    if at == 1 {
        return put_number(code, room);
    }
    at + base::put(b";", &mut room[at..])
}

// Writes what stands for an ASCII character in `quoted` to the start of `room` and returns its length, 0 if it is copied: nothing is written then.
pub fn put_quoted(b: u32, room: &mut [u8]) -> usize
    requires { 32 ≤ length room.old }
    ensures { Puts (quoted_unit b) result room.old room.new × (result ≤ 22) }
{
    match b {
        38 => base::put(b"&amp;", room),
        60 => base::put(b"&lt;", room),
        62 => base::put(b"&gt;", room),
        34 => base::put(b"&quot;", room),
        39 => base::put(b"&#x27;", room),
        _ => 0,
    }
}

// Writes an ASCII character as `quoted` does to the start of `room` and returns how many bytes that is: one where it is copied.
fn put_low(b: u8, room: &mut [u8]) -> usize
    requires { (b < 128) × (32 ≤ length room.old) }
    ensures { Puts (encode_of InAscii (b ∷ [])) result room.old room.new × (result ≤ 22) × (replaced (through (encode_step InAscii) (b ∷ [])) ≡ cond (eqb result 1) 0 1) }
{
    let written = put_quoted(b as u32, room);
    if written == 0 {
        room[0] = b;
        return 1;
    }
    written
}

// Returns 0 if a character is written as one byte, since it is copied then, else 1: what is added to the count of replaced places.
fn changed(written: usize) -> usize
    ensures { result ≡ cond (eqb written 1) 0 1 }
{
    if written == 1 { 0 } else { 1 }
}

// What is written for a character: how many bytes, how many the character has, and 1 if it is replaced.
#[derive(Clone, Copy)]
pub struct Put {
    pub written: usize,
    pub width: usize,
    pub replaced: usize,
}

// Writes what stands for the character at offset `at` of a text which is valid from there on to the start of `room`.
pub fn put_next(text: &[u8], at: usize, room: &mut [u8]) -> Put
    requires { (at < length text.now) × IsText (drop at text.now) × (32 ≤ length room.old) }
    ensures { PutsNext (drop at text.now) result room.old room.new }
{
    if text[at] < 128 {
        let n = put_low(text[at], room);
        return Put {
            written: n,
            width: 1,
            replaced: changed(n),
        };
    }
    let c = read(text, at);
    Put {
        written: put_reference(c.code, room),
        width: c.width,
        replaced: 1,
    }
}
