// The bytes of the value of a reference: how many they are, and writing them.
ghost use Rattle.std.specs.Prelude.{◌≡◌, ◌≤◌, length};
ghost use Rattle.rules.specs.Bytes.{over};
ghost use Rattle.rules.specs.Answers.{value_bytes};
ghost use Rattle.decode_html.specs.Taking.{Real};

use rules::DecodedEntityValue;

// Returns how many bytes a value has.
pub fn value_length(value: DecodedEntityValue) -> usize
    ensures { (result ≡ length (value_bytes value)) × (result ≤ 6) }
{
    match value {
        DecodedEntityValue::Named(text) => names::value_length(text),
        DecodedEntityValue::Character(number) => base::chars::char_length(number),
    }
}

// Writes a value to the start of `output` and returns its length; the bytes after it keep their values. In line in the loops that call it, where a call
// costs a twentieth more instructions.
#[inline(always)]
pub fn put_value(value: DecodedEntityValue, output: &mut [u8]) -> usize
    requires { Real value × (length (value_bytes value) ≤ length output.old) }
    ensures { (result ≡ length (value_bytes value)) × (output.new ≡ over (value_bytes value) output.old) }
{
    match value {
        DecodedEntityValue::Named(text) => names::put_value(text, output),
        DecodedEntityValue::Character(number) => base::chars::put_char(number, output),
    }
}
