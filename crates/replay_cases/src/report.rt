// Prints the cases that differ, and the counts.
ghost use Rattle.std.specs.Prelude.{◌≡◌, ◌<◌, ◌≤◌};

use crate::State;
use crate::cases::{Case, Difference};
use lintelrye::{Operation, labels};
use rules::AnyContext;
use std::io;
use std::io::Write;

// The kinds of cases are an operation in a context: 32 numbers for each operation, the last of them for all numbers of no context.
const NO_CONTEXT: usize = 31;

const KINDS: usize = 128;

// How many cases ran, and how many of these differ.
#[derive(Clone, Copy)]
pub struct Counts {
    pub ran: u64,
    pub differ: u64,
}

impl Counts {
    // Counts one case.
    fn add(&mut self, differs: bool) {
        self.ran = self.ran.wrapping_add(1);
        if differs {
            self.differ = self.differ.wrapping_add(1);
        }
    }

    // Prints both counts.
    fn print<R: Print>(&self, rt: &R) -> io::Result<()> {
        println!(rt; "{} cases ran, {} differ", self.ran, self.differ)
    }
}

// The counts of each kind of case, and of all of them.
#[derive(Clone, Copy)]
pub struct Tally {
    pub kinds: [Counts; KINDS],
    pub all: Counts,
}

// Returns the tally of no case.
pub fn no_cases() -> Tally
    ensures { (result.all.ran ≡ 0) × (result.all.differ ≡ 0) }
{
    let none = Counts { ran: 0, differ: 0 };
    Tally {
        kinds: [none; KINDS],
        all: none,
    }
}

// Prints bytes.
fn print<R: Print>(rt: &R, bytes: &[u8]) -> io::Result<()> {
    io::writer(rt).write_all(bytes)
}

// Returns the context's number, or NO_CONTEXT where it names none.
fn slot_of(context: u32) -> usize
    ensures { result ≤ 31 }
{
    match rules::context_of(context) {
        AnyContext::Unknown => NO_CONTEXT,
        _ => NO_CONTEXT.min(context as usize),
    }
}

// Returns the number of the kind of a case.
fn kind_of(case: Case) -> usize
    ensures { result < 128 }
{
    let context = slot_of(case.context);
    match case.operation {
        Operation::Encode => context,
        Operation::Decode => 32 + context,
        Operation::Read => 64 + context,
        Operation::Browse => 96 + context,
    }
}

// Prints the name of a number in a table of names, a line each.
fn print_name<R: Print>(rt: &R, names: &[u8], number: usize) -> io::Result<()> {
    match names.split(|b| *b == b'\n').nth(number) {
        Some(name) => print(rt, name),
        None => Ok(()),
    }
}

// Prints the operation and the context of a kind.
fn print_kind<R: Print>(rt: &R, kind: usize) -> io::Result<()> {
    print_name(rt, &labels::OPERATION_NAMES, kind / 32)?;
    print!(rt; " ")?;
    match kind % 32 {
        NO_CONTEXT => print!(rt; "in no context"),
        context => print_name(rt, &labels::CONTEXT_NAMES, context),
    }
}

// Counts a case that ran, and prints it where it is among the first ten that differ: its number,
// the line of the list, the call, and what differs first.
pub fn count<R: Print>(
    rt: &R,
    line: u64,
    case: Case,
    compared: Result<(), Difference>,
    tally: &mut Tally,
) -> io::Result<()> {
    let kind = kind_of(case);
    tally.kinds[kind].add(compared.is_err());
    tally.all.add(compared.is_err());
    let Err(difference) = compared else {
        return Ok(());
    };
    if 10 < tally.all.differ {
        return Ok(());
    }
    let call = if case.borrows { "borrowing" } else { "copying" };
    print!(rt; "case {}, line {line}: ", tally.all.ran)?;
    print_kind(rt, kind)?;
    println!(rt; ", {call}: {difference} differs")
}

// Prints the counts of each kind of which any case ran, and then those of all; where the list is
// malformed, that is its last line was not met, the line instead of the last.
pub fn all<R: Print>(rt: &R, state: State, tally: &Tally) -> io::Result<()> {
    for (kind, count) in tally.kinds.iter().enumerate() {
        if count.ran != 0 {
            print_kind(rt, kind)?;
            print!(rt; ": ")?;
            count.print(rt)?;
        }
    }
    if state.ended {
        return tally.all.print(rt);
    }
    let line = state.line;
    println!(rt; "the list is malformed at line {line}, and the cases from there on did not run")
}
