// The table of names: the value of a name, and the bytes of a value that is packed into one number.
#![tactic(auto)]

ghost use Rattle.std.proofs.Math.Option.{some};
ghost use Rattle.std.specs.Prelude.{◌≡◌, ◌≤◌, IfSome, length};
ghost use Rattle.rules.specs.Bytes.{over};
ghost use Rattle.rules.specs.Names.{names};
ghost use Rattle.rules.specs.References.{lookup};
ghost use Rattle.rules.specs.Answers.{value_bytes, meaning_bytes};
ghost use Rattle.rules.specs.declared.DecodedEntityValue.TheVariants.{Named};

use rules::DecodedEntityValue;

mod by_letter;

// Returns the value of one of the most common names: a few comparisons in place of a search. `amp` is not among them, since the decoder knows `&amp;`,
// and `&lt;` and `&gt;` before the last four bytes of a text, without their names.
fn common(name: &[u8]) -> Option<DecodedEntityValue>
    ensures { IfSome result (λ v. lookup names name.now ≡ some (value_bytes v)) }
{
    let packed = match name {
        b"lt" => 0x3C, // <
        b"gt" => 0x3E, // >
        b"quot" => 0x22, // "
        b"apos" => 0x27, // '
        b"nbsp" => 0xA0C2, // U+00A0, the first byte lowest
        _ => return None,
    };
    Some(DecodedEntityValue::Named(packed))
}

// Returns the value of a name, by its first letter.
fn find_in_group(name: &[u8]) -> Option<DecodedEntityValue>
    ensures { meaning_bytes result ≡ lookup names name.now }
{
    let (first, rest) = name.split_first()?;
    by_letter::find_by_letter(*first, rest)
}

// Returns the value of a name: the common names are tested first.
pub fn decode_named_entity(name: &[u8]) -> Option<DecodedEntityValue>
    ensures { meaning_bytes result ≡ lookup names name.now }
{
    common(name).or_else(|| find_in_group(name))
}

// Returns how many bytes are packed into a value, at most six: one for each power of 256 that it reaches. The sum is written out, since a chain over the
// powers stays a loop in the code, and decoding then takes a seventh more instructions.
pub fn value_length(value: u64) -> usize
    ensures { (result ≡ length (value_bytes (Named value))) × (result ≤ 6) }
{
    let a = base::reaches(value, 0x1);
    let b = base::reaches(value, 0x100);
    let c = base::reaches(value, 0x10000);
    let d = base::reaches(value, 0x1000000);
    let e = base::reaches(value, 0x100000000);
    let f = base::reaches(value, 0x10000000000);
    a + b + c + d + e + f
}

// Writes the bytes that are packed into a value to the start of `output` and returns their number; what lies past them keeps its values.
pub fn put_value(value: u64, output: &mut [u8]) -> usize
    requires { length (value_bytes (Named value)) ≤ length output.old }
    ensures { (result ≡ length (value_bytes (Named value))) × (result ≤ 6) × (output.new ≡ over (value_bytes (Named value)) output.old) }
{
    let mut rest = value;
    for n in 0..6 {
        if rest == 0 {
            return n;
        }
        output[n] = (rest % 256) as u8;
        rest /= 256;
    }
    6
}
