// The strict reader in every context, for texts of any length: measuring, and writing.
// That the text is valid stands in each contract: it is what the frame has found, and nothing here is kept from call to call.
ghost use Rattle.std.specs.Prelude.{◌≡◌, ◌≤◌, length};
ghost use Rattle.rules.specs.Bytes.{over};
ghost use Rattle.rules.specs.Moves.{through};
ghost use Rattle.rules.specs.Utf8.{valid_to};
ghost use Rattle.rules.specs.Answers.{Measures};
ghost use Rattle.rules.specs.Reading.{read_step};
ghost use Rattle.rules.specs.Operations.{read_of};

use rules::{Context, Measured};

// Measures what read makes of a valid text: ascii_quoted has units by rule, the others those of a table.
pub fn measure_read(context: Context, text: &[u8]) -> Measured
    requires { (length text.now ≤ 65536) × (valid_to text.now ≡ length text.now) }
    ensures { Measures result (through (read_step context) text.now) }
{
    let Context::InAscii = context else {
        return reader::measure(context, text);
    };
    read_ascii::measure(text)
}

// Writes what read makes of a valid text to the start of `output`; what lies past it keeps its values.
pub fn write_read(context: Context, text: &[u8], output: &mut [u8]) -> Measured
    requires { (valid_to text.now ≡ length text.now) × (length (read_of context text.now) ≤ length output.old) }
    ensures { Measures result (through (read_step context) text.now) × (output.new ≡ over (read_of context text.now) output.old) }
{
    let Context::InAscii = context else {
        return reader::write(context, text, output);
    };
    read_ascii::write(text, output)
}
