// The names of the contexts and operations, as the programs read and print them.
ghost use Rattle.std.specs.Prelude.{◌≡◌, [], get_or};
ghost use Rattle.rules.specs.Contexts.{label, operation_names};
ghost use Rattle.rules.specs.declared.Operation.TheVariants.{Browse};

use rules::Operation;

// The names of the contexts in the order of their numbers, a line each.
pub const CONTEXT_NAMES: [u8; 177] = *b"\
    text_minimal\n\
    text\n\
    double_quoted\n\
    single_quoted\n\
    quoted\n\
    safe\n\
    unquoted\n\
    script_single\n\
    script_double\n\
    script_quoted\n\
    style_single\n\
    style_double\n\
    style_quoted\n\
    script_raw\n\
    json\n\
    ascii_quoted\n";

// The names of the operations, a line each.
pub const OPERATION_NAMES: [u8; 26] = *b"\
    encode\n\
    decode\n\
    read\n\
    browse\n";

// Returns the operation of a number, which is its place among the names; any other number gives the last.
pub fn operation_of(number: u32) -> Operation
    ensures { result ≡ (get_or operation_names number (label [] Browse)).names }
{
    match number {
        0 => Operation::Encode,
        1 => Operation::Decode,
        2 => Operation::Read,
        _ => Operation::Browse,
    }
}
