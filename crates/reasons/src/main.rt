// The program `reasons` (RULES 15): it reads a text from standard input and prints a line for each reference that decode leaves, or the status of a
// refusal. All of its lines are those of `reports`, whose contracts say every byte that is printed for the bytes that were read.
//
// Only the first `reports::ENOUGH` bytes are kept: what follows changes nothing (`reports::is_enough`), and is dropped after the lines are printed.
// Where a read fails nothing is printed, and where a write fails no more than was written; standard error then says why.
#![tactic(auto)]

use std::io;

// Prints the line of a refusal, and returns whether there is one.
fn refused(rt: &HostRuntime, text: &[u8]) -> io::Result<bool> {
    let mut output = [0; reports::LINE_ROOM];
    let Some(n) = reports::refuse(text, &mut output) else {
        return Ok(false);
    };
    pipes::write(rt, &output[..n])?;
    Ok(true)
}

// Prints the lines of the references that stay, one after the other.
fn print_lines(rt: &HostRuntime, text: &[u8]) -> io::Result<()> {
    let mut output = [0; reports::LINE_ROOM];
    let mut from = 0;
    // A cursor: each turn moves it past the reference that it reported.
    while let Some(line) = reports::report(text, from, &mut output) {
        pipes::write(rt, &output[..line.length])?;
        from = line.next;
    }
    Ok(())
}

// Prints all that is to be printed of a text.
fn print_report(rt: &HostRuntime, text: &[u8]) -> io::Result<()> {
    if !refused(rt, text)? {
        print_lines(rt, text)?;
    }
    Ok(())
}

// Reads a text, prints its lines, and drops what follows it.
fn main(rt: HostRuntime) -> io::Result<()> {
    let mut input = [0; reports::ENOUGH];
    pipes::answer(
        &rt,
        &mut input,
        reports::is_enough,
        |text| print_report(&rt, text),
    )
}
