// A small program as another repository would write it over the library: prints a plate with a name that somebody typed, once in an attribute and once as
// text. The contract of `escape_title` says by the library's own definitions what goes into the attribute: a call in the context of another place is not
// proved (must-fail), and proofs/Kept.antt concludes from it that the name can be had back.
#![tactic(auto)]

ghost use Rattle.std.specs.Prelude.{false};
ghost use Rattle.rules.specs.Refusals.{Allowed};
ghost use Rattle.rules.specs.declared.AnyContext.TheVariants.{Units};
ghost use Rattle.rules.specs.declared.Context.TheVariants.{InHtml};
ghost use Rattle.rules.specs.declared.Html.TheVariants.{DoubleQuoted};
ghost use Rattle.rules.specs.declared.Operation.TheVariants.{Encode};

use lintelrye::Answer;
use std::io;
use std::io::Write;

// Escapes a name for an attribute between double quotes.
fn escape_title(name: &[u8], output: &mut [u8]) -> Answer
    ensures { Allowed Encode (Units (InHtml DoubleQuoted)) false name.now output.old result output.new }
{
    lintelrye::encode(lintelrye::DOUBLE_QUOTED, name, output)
}

// Prints a plate, or that the name was refused and why.
fn print_plate(rt: &HostRuntime, name: &[u8]) -> io::Result<()> {
    let mut title = [0; 240];
    let mut text = [0; 240];
    let first = escape_title(name, &mut title);
    let second = lintelrye::encode(lintelrye::TEXT, name, &mut text);
    for answer in [first, second] {
        if answer.status != lintelrye::PASSED {
            return println!(rt; "refused with status {}", answer.status);
        }
    }
    print!(rt; "<p title=\"")?;
    io::writer(rt).write_all(lintelrye::view(name, &title, first))?;
    print!(rt; "\">")?;
    io::writer(rt).write_all(lintelrye::view(name, &text, second))?;
    println!(rt; "</p>")
}

// Prints the plates of two names, and of a third that is cut within a character.
fn main(rt: HostRuntime) -> io::Result<()> {
    print_plate(&rt, b"Mum & Dad's")?;
    print_plate(&rt, b"The \"den\" <attic>")?;
    print_plate(&rt, b"cut \xC3")
}
