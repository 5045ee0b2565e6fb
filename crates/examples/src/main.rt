// Runs the examples of RULES 16 through the public calls, copying and borrowing, and prints what each answers: the number of the example,
// status, length, same, replaced, place, left and reason of the two calls, and what view gives of each, in hex.
#![tactic(auto)]

use lintelrye::{Answer, Operation};
use std::io;

// Prints the number of an example, and an answer's seven numbers.
fn print_answer(rt: &HostRuntime, example: usize, answer: Answer) -> io::Result<()> {
    let Answer {
        status,
        length,
        same,
        replaced,
        place,
        left,
        reason,
    } = answer;
    print!(rt; "{example} {status} {length} {same} {replaced} {place} {left} {reason} ")
}

// Prints bytes in hex, and a line end.
fn print_bytes(rt: &HostRuntime, bytes: &[u8]) -> io::Result<()> {
    for byte in bytes {
        print!(rt; "{byte:02x}")?;
    }
    println!(rt)
}

// Runs one example with an output that is lent whole, and prints both calls.
fn show(
    rt: &HostRuntime,
    example: usize,
    operation: Operation,
    context: u32,
    text: &[u8],
    output: &mut [u8],
) -> io::Result<()> {
    for borrows in [true, false] {
        let answer = lintelrye::call(operation, context, borrows, text, output);
        print_answer(rt, example, answer)?;
        print_bytes(rt, lintelrye::view(text, output, answer))?;
    }
    Ok(())
}

// Runs example 15, 65,536 letters, which pass, and 65,537, which are TOO_LONG, and prints the two answers.
fn long_texts(rt: &HostRuntime) -> io::Result<()> {
    let letters = [b'a'; 65537];
    let mut output = [0; 65536];
    let passes = lintelrye::encode(lintelrye::TEXT, &letters[..65536], &mut output);
    print_answer(rt, 15, passes)?;
    println!(rt)?;
    let refused = lintelrye::encode(lintelrye::TEXT, &letters, &mut output);
    print_answer(rt, 15, refused)?;
    println!(rt)
}

// Runs an example of encode with room enough.
fn encoded(rt: &HostRuntime, example: usize, context: u32, text: &[u8]) -> io::Result<()> {
    let mut output = [0; 64];
    show(rt, example, Operation::Encode, context, text, &mut output)
}

// Runs an example of decode with room enough.
fn decoded(rt: &HostRuntime, example: usize, context: u32, text: &[u8]) -> io::Result<()> {
    let mut output = [0; 64];
    show(rt, example, Operation::Decode, context, text, &mut output)
}

// Runs examples 1 to 7: what the encoders write.
fn encoders(rt: &HostRuntime) -> io::Result<()> {
    encoded(rt, 1, lintelrye::TEXT_MINIMAL, b"a<b>&")?;
    encoded(rt, 2, lintelrye::SAFE, b"'/\"")?;
    encoded(rt, 3, lintelrye::SCRIPT_SINGLE, b"it's \"x\"\\")?;
    encoded(rt, 4, lintelrye::SCRIPT_DOUBLE, b"\x0a<")?;
    encoded(rt, 5, lintelrye::STYLE_QUOTED, b"\x0a<\x00")?;
    encoded(rt, 6, lintelrye::SCRIPT_QUOTED, b"\xe2\x80\xa8")?;
    encoded(rt, 6, lintelrye::SCRIPT_QUOTED, b"\xe2\x80\xaa")?;
    encoded(rt, 7, lintelrye::SCRIPT_RAW, b"<</script")?;
    encoded(rt, 7, lintelrye::SCRIPT_RAW, b"</scripts>")
}

// Runs examples 8 and 9: decode of references.
fn references(rt: &HostRuntime) -> io::Result<()> {
    decoded(rt, 8, lintelrye::TEXT, b"&&lt;")?;
    decoded(rt, 8, lintelrye::TEXT, b"&amp;lt;")?;
    decoded(rt, 9, lintelrye::TEXT, b"&#9;")?;
    decoded(rt, 9, lintelrye::TEXT, b"&#11;")?;
    decoded(rt, 9, lintelrye::TEXT, b"&#0;")?;
    decoded(rt, 9, lintelrye::TEXT, b"&#+65;")?;
    decoded(rt, 9, lintelrye::TEXT, b"&#xD800;")?;
    decoded(rt, 9, lintelrye::TEXT, b"&#4294967296;")
}

// Runs examples 10, 11 and 13: decode of string escapes.
fn escapes(rt: &HostRuntime) -> io::Result<()> {
    decoded(rt, 10, lintelrye::SCRIPT_QUOTED, b"\\\\x3C")?;
    decoded(rt, 10, lintelrye::SCRIPT_QUOTED, b"\\x3c")?;
    decoded(rt, 10, lintelrye::SCRIPT_QUOTED, b"\\x20")?;
    decoded(rt, 11, lintelrye::STYLE_QUOTED, b"\\3C ")?;
    decoded(rt, 11, lintelrye::STYLE_QUOTED, b"\\3C")?;
    decoded(rt, 11, lintelrye::STYLE_QUOTED, b"\\00 ")?;
    decoded(rt, 13, lintelrye::SCRIPT_QUOTED, b"<\\/SCRIPT ")?;
    decoded(rt, 13, lintelrye::SCRIPT_QUOTED, b"<\\/script")
}

// Runs examples 12, 14, 15 and 16: places, and outputs that are too short or just long enough.
fn refusals(rt: &HostRuntime) -> io::Result<()> {
    let mut of_64 = [0; 64];
    let mut of_5 = [0; 5];
    let mut of_4 = [0; 4];
    let mut of_3 = [0; 3];
    show(
        rt,
        12,
        Operation::Read,
        lintelrye::TEXT_MINIMAL,
        b"a&lt;&gt;",
        &mut of_64,
    )?;
    show(
        rt,
        14,
        Operation::Decode,
        lintelrye::TEXT,
        b"&nGt;",
        &mut of_64,
    )?;
    show(
        rt,
        14,
        Operation::Decode,
        lintelrye::TEXT,
        b"&nGt;",
        &mut of_5,
    )?;
    show(
        rt,
        15,
        Operation::Encode,
        lintelrye::TEXT,
        b"a\xc3(",
        &mut of_64,
    )?;
    show(rt, 16, Operation::Encode, lintelrye::TEXT, b"<", &mut of_3)?;
    show(rt, 16, Operation::Encode, lintelrye::TEXT, b"<", &mut of_4)
}

// Runs examples 17 and 18: browse, and the empty text in each operation.
fn others(rt: &HostRuntime) -> io::Result<()> {
    let mut of_64 = [0; 64];
    show(
        rt,
        17,
        Operation::Browse,
        lintelrye::TEXT,
        b"&#0;",
        &mut of_64,
    )?;
    show(rt, 18, Operation::Encode, lintelrye::TEXT, b"", &mut of_64)?;
    show(rt, 18, Operation::Decode, lintelrye::TEXT, b"", &mut of_64)?;
    show(rt, 18, Operation::Read, lintelrye::TEXT, b"", &mut of_64)?;
    show(rt, 18, Operation::Browse, lintelrye::TEXT, b"", &mut of_64)
}

// Runs them all.
fn main(rt: HostRuntime) -> io::Result<()> {
    encoders(&rt)?;
    references(&rt)?;
    escapes(&rt)?;
    refusals(&rt)?;
    others(&rt)?;
    long_texts(&rt)
}
