// The program `entity` (RULES 15): it reads a request from standard input and prints the reply. All of its work is `requests::reply`, whose
// contract says every byte that is printed for the bytes that were read.
//
// Only the first `requests::ENOUGH` bytes are kept: what follows changes nothing (`requests::is_enough`), and is dropped after the reply is printed.
// Where a read fails nothing is printed, and where a write fails no more than was written; standard error then says why.
#![tactic(auto)]

use std::io;

// Prints the reply to a request.
fn print_reply(rt: &HostRuntime, input: &[u8]) -> io::Result<()> {
    let mut output = [0; requests::REPLY_ROOM];
    let n = requests::reply(input, &mut output);
    pipes::write(rt, &output[..n])
}

// Reads a request, prints the reply, and drops what follows it.
fn main(rt: HostRuntime) -> io::Result<()> {
    let mut input = [0; requests::ENOUGH];
    pipes::answer(
        &rt,
        &mut input,
        requests::is_enough,
        |request| print_reply(&rt, request),
    )
}
