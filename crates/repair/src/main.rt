// The program `repair` (RULES 24): it reads a stored field with its context from standard input and prints how many layers of escaping it had, and the
// field with one. All of its work is `repairs::reply`, whose contract says every byte that is printed for the bytes that were read.
//
// Only the first `repairs::ENOUGH` bytes are kept: what follows changes nothing (`repairs::is_enough`), and is dropped after the reply is printed.
// Where a read fails nothing is printed, and where a write fails no more than was written; standard error then says why.
#![tactic(auto)]

use std::io;

// Prints the reply to a request.
fn print_reply(rt: &HostRuntime, input: &[u8]) -> io::Result<()> {
    let mut output = [0; repairs::REPLY_ROOM];
    let n = repairs::reply(input, &mut output);
    pipes::write(rt, &output[..n])
}

// Reads a request, prints the reply, and drops what follows it.
fn main(rt: HostRuntime) -> io::Result<()> {
    let mut input = [0; repairs::ENOUGH];
    pipes::answer(
        &rt,
        &mut input,
        repairs::is_enough,
        |request| print_reply(&rt, request),
    )
}
