// Standard input and output for programs that read a request as a whole and print one reply.
//
// What is proved of this file is that it is safe and ends. No contract of a system's call can say that the bytes are those of standard input, in their
// order, or that they are written: tools/check_entity runs it.
#![tactic(auto)]

ghost use Rattle.std.specs.Prelude.{◌≡◌, ◌≤◌, length, take, IfOk};

use std::io;
use std::io::{Read, Write};

// Reads standard input until `input` is full or the input ends, and returns how many bytes it put at the start of `input`. A pipe can return fewer bytes
// than asked for: that is not the end.
pub fn read_into<R: Input>(rt: &R, input: &mut [u8]) -> io::Result<usize>
    ensures { IfOk result (λ n. (n ≤ length input.new) × (n ≡ length (take n input.new))) }
{
    let mut reader = rt.reader();
    let mut at = 0;
    // A cursor: each turn moves it by what was read.
    while at < input.len() {
        match reader.read(&mut input[at..])? {
            0 => return Ok(at),
            n => at += n,
        }
    }
    Ok(at)
}

// Writes all of `bytes` to standard output.
pub fn write<R: Print>(rt: &R, bytes: &[u8]) -> io::Result<()> {
    io::writer(rt).write_all(bytes)
}

// Reads once, drops the bytes, and returns whether there were any.
fn drop_some<T: io::Read>(reader: &mut T) -> bool {
    let mut dropped = [0u8; 65536];
    0 < reader.read(&mut dropped).unwrap_or(0)
}

// Reads and drops the rest of standard input, so that whoever writes it is not cut off. Nothing
// says that it ends, so the turns are those of a count that no run uses up.
pub fn drop_rest<R: Input>(rt: &R) {
    let mut reader = rt.reader();
    for _ in 0..u64::MAX {
        if !drop_some(&mut reader) {
            return;
        }
    }
}

// Answers the request on standard input: reads it into `input`, has the reply printed, and then
// drops what follows, where what was read is enough for the reply whatever follows it. Where a read
// fails nothing is printed.
pub fn answer<R: Input, E: FnOnce(usize) -> bool, P: FnOnce(&[u8]) -> io::Result<()>>(
    rt: &R,
    input: &mut [u8],
    is_enough: E,
    print_reply: P,
) -> io::Result<()>
    requires { E.IsAlwaysCallable is_enough × P.IsAlwaysCallable print_reply }
{
    let n = read_into(rt, input)?;
    let printed = print_reply(&input[..n]);
    if is_enough(n) {
        drop_rest(rt);
    }
    printed
}
