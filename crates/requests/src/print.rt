// Writes the lines of an answer.
// Digits are put one by one: each byte of the lent output is promised, and `write!` has no such output to write to.
ghost use Rattle.std.specs.Prelude.{◌≡◌, [], ◌++◌, ◌+◌, ◌≤◌, ◌<◌, length};
ghost use Rattle.rules.specs.Bytes.{over};
ghost use Rattle.rules.specs.Program.{last_digits, decimal, printed};
ghost use Rattle.requests.specs.Asked.{first_lines, first_most, lines_most};

use rules::Answer;

// Returns the digit of a number below ten.
fn digit(n: usize) -> u8
    requires { n < 10 }
    ensures { result ≡ 48 + n }
{
    b'0' + n as u8
}

// Writes the last `most` digits of a number, without leading zeros, to the start of `output` and
// returns how many; the rest keeps its values. By hand, since the contract says each byte of a
// buffer that is lent; `write!` has no such one to write to.
fn put_digits(most: usize, n: usize, output: &mut [u8]) -> usize
    requires { most ≤ length output.old }
    ensures { (result ≡ length (last_digits most n)) × (output.new ≡ over (last_digits most n) output.old) × (result ≤ most) }
{
    if most == 0 {
        return 0;
    }
    if n < 10 {
        output[0] = digit(n);
        return 1;
    }
    let at = put_digits(most - 1, n / 10, output);
    output[at] = digit(n % 10);
    at + 1
}

// Writes `name` and a number in decimal.
pub fn put_number(name: &[u8], n: usize, output: &mut [u8]) -> usize
    requires { length name.now + 20 ≤ length output.old }
    ensures { (result ≡ length (name.now ++ decimal n)) × (output.new ≡ over (name.now ++ decimal n) output.old) × (result ≤ length name.now + 20) }
{
    let at = base::put(name, output);
    at + put_digits(20, n, &mut output[at..])
}

// Writes `name`, a number in decimal and `end` to the start of `output` and returns how many bytes they are; the rest keeps its values.
pub fn put_field(name: &[u8], n: usize, end: &[u8], output: &mut [u8]) -> usize
    requires { length name.now + 20 + length end.now ≤ length output.old }
    ensures { (result ≡ length (name.now ++ decimal n ++ end.now)) × (output.new ≡ over (name.now ++ decimal n ++ end.now) output.old) × (result ≤ length name.now + 20 + length end.now) }
{
    let at = put_number(name, n, output);
    at + base::put(end, &mut output[at..])
}

// Writes the first three lines of an answer, without the last line end.
fn put_first(answer: Answer, output: &mut [u8]) -> usize
    requires { first_most ≤ length output.old }
    ensures { (result ≡ length (first_lines answer)) × (output.new ≡ over (first_lines answer) output.old) × (result ≤ first_most) }
{
    let mut at = put_number(b"status=", answer.status, output);
    at += put_number(b"\nlength=", answer.length, &mut output[at..]);
    at += put_number(b"\nsame=", answer.same, &mut output[at..]);
    at
}

// Writes the lines of an answer up to `text=`.
pub fn put_answer(answer: Answer, output: &mut [u8]) -> usize
    requires { lines_most ≤ length output.old }
    ensures { (result ≡ length (printed answer [])) × (output.new ≡ over (printed answer []) output.old) × (result ≤ lines_most) }
{
    let mut at = put_first(answer, output);
    at += put_number(b"\nreplaced=", answer.replaced, &mut output[at..]);
    at += put_number(b"\nplace=", answer.place, &mut output[at..]);
    at += base::put(b"\ntext=", &mut output[at..]);
    at
}
