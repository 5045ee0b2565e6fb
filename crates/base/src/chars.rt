// UTF-8 encoding of a character by its number, as in html-escape's functions.rs.
ghost use Rattle.std.specs.Prelude.{◌≡◌, ◌≤◌, length};
ghost use Rattle.rules.specs.Bytes.{over};
ghost use Rattle.rules.specs.Utf8.{utf8};

// Returns the length of a character in UTF-8.
pub fn char_length(number: u32) -> usize
    ensures { (result ≡ length (utf8 number)) × (result ≤ 4) }
{
    let n = number as u64;
    1 + crate::reaches(n, 0x80) + crate::reaches(n, 0x800) + crate::reaches(n, 0x10000)
}

// Writes a character in UTF-8 to the start of `output`, leaves the bytes after it as they were, and returns its length.
pub fn put_char(number: u32, output: &mut [u8]) -> usize
    requires { (number ≤ 0x10FFFF) × (length (utf8 number) ≤ length output.old) }
    ensures { (result ≡ length (utf8 number)) × (output.new ≡ over (utf8 number) output.old) }
{
    if number < 0x80 {
        return crate::put(&[number as u8], output);
    }
    let last = (0x80 + number % 64) as u8;
    if number < 0x800 {
        return crate::put(&[(0xC0 + number / 64) as u8, last], output);
    }
    let third = (0x80 + number / 64 % 64) as u8;
    if number < 0x10000 {
        return crate::put(&[(0xE0 + number / 4096) as u8, third, last], output);
    }
    let second = (0x80 + number / 4096 % 64) as u8;
    crate::put(
        &[(0xF0 + number / 262144) as u8, second, third, last],
        output,
    )
}
