// Lintelrye for C and Rust: the calls of crates/lintelrye, exported under names of C. `rt lib` in this crate writes the archive, and
// include/lintelrye.h documents each function for a C caller. A text or an output is a pointer and a length. The names end in how many numbers an
// answer has, so that a program which expects another record does not link.
#![tactic(auto)]

ghost use Rattle.std.specs.Prelude.{true, false, [], ◌≡◌};
ghost use Rattle.rules.specs.Contexts.{context_of};
ghost use Rattle.rules.specs.Refusals.{Allowed, check_of};
ghost use Rattle.rules.specs.Closings.{closing_of};
ghost use Rattle.rules.specs.Pages.{PageAllowed};
ghost use Rattle.lent.specs.Lent.{PartLent};
ghost use Rattle.rules.specs.declared.Operation.TheVariants.{Encode, Decode, Read, Browse};

use lintelrye::{Answer, Checked, Closing, Field, Filled};

// Escapes `text` for `context`: `lintelrye::encode`.
#[unsafe(no_mangle)]
pub extern "C" fn lintelrye_encode_7(context: u32, text: &[u8], output: &mut [u8]) -> Answer
    ensures { Allowed Encode (context_of context) false text.now output.old result output.new }
{
    lintelrye::encode(context, text, output)
}

// The same as a borrowing call: `lintelrye::encode_borrowing`.
#[unsafe(no_mangle)]
pub extern "C" fn lintelrye_encode_borrowing_7(
    context: u32,
    text: &[u8],
    output: &mut [u8],
) -> Answer
    ensures { Allowed Encode (context_of context) true text.now output.old result output.new }
{
    lintelrye::encode_borrowing(context, text, output)
}

// Undoes the replacements as html-escape does: `lintelrye::decode`.
#[unsafe(no_mangle)]
pub extern "C" fn lintelrye_decode_7(context: u32, text: &[u8], output: &mut [u8]) -> Answer
    ensures { Allowed Decode (context_of context) false text.now output.old result output.new }
{
    lintelrye::decode(context, text, output)
}

// The same as a borrowing call: `lintelrye::decode_borrowing`.
#[unsafe(no_mangle)]
pub extern "C" fn lintelrye_decode_borrowing_7(
    context: u32,
    text: &[u8],
    output: &mut [u8],
) -> Answer
    ensures { Allowed Decode (context_of context) true text.now output.old result output.new }
{
    lintelrye::decode_borrowing(context, text, output)
}

// Tells whether encode writes such a text, without an output: `lintelrye::check`.
#[unsafe(no_mangle)]
pub extern "C" fn lintelrye_check(context: u32, text: &[u8]) -> Checked
    ensures { result ≡ check_of (context_of context) text.now }
{
    lintelrye::check(context, text)
}

// Undoes exactly what encode writes: `lintelrye::take`.
#[unsafe(no_mangle)]
pub extern "C" fn lintelrye_take_7(context: u32, text: &[u8], output: &mut [u8]) -> Answer
    ensures { Allowed Read (context_of context) false text.now output.old result output.new }
{
    lintelrye::take(context, text, output)
}

// The same as a borrowing call: `lintelrye::take_borrowing`.
#[unsafe(no_mangle)]
pub extern "C" fn lintelrye_take_borrowing_7(context: u32, text: &[u8], output: &mut [u8]) -> Answer
    ensures { Allowed Read (context_of context) true text.now output.old result output.new }
{
    lintelrye::take_borrowing(context, text, output)
}

// Undoes character references as a browser does: `lintelrye::browse`.
#[unsafe(no_mangle)]
pub extern "C" fn lintelrye_browse_7(context: u32, text: &[u8], output: &mut [u8]) -> Answer
    ensures { Allowed Browse (context_of context) false text.now output.old result output.new }
{
    lintelrye::browse(context, text, output)
}

// The same as a borrowing call: `lintelrye::browse_borrowing`.
#[unsafe(no_mangle)]
pub extern "C" fn lintelrye_browse_borrowing_7(
    context: u32,
    text: &[u8],
    output: &mut [u8],
) -> Answer
    ensures { Allowed Browse (context_of context) true text.now output.old result output.new }
{
    lintelrye::browse_borrowing(context, text, output)
}

// Fills a page of records: `lintelrye::fill_page`.
#[unsafe(no_mangle)]
pub extern "C" fn lintelrye_fill_page_7(
    fields: &mut [Field],
    text: &[u8],
    output: &mut [u8],
) -> Filled
    ensures { PageAllowed text.now fields.old output.old result fields.new output.new }
{
    lintelrye::fill_page(fields, text, output)
}

// Returns where the text of a script element ends: `lintelrye::closing_tag`.
#[unsafe(no_mangle)]
pub extern "C" fn lintelrye_closing_tag(text: &[u8]) -> Closing
    ensures { result ≡ closing_of text.now }
{
    lintelrye::closing_tag(text)
}

// Encodes a part of a raw script: `lent::script_raw_part`. The state is lent as two arrays: the held bytes; and how many of them are held, how many bytes
// were taken before them, and whether a finish has passed (not 0).
#[unsafe(no_mangle)]
pub extern "C" fn lintelrye_script_raw_part_7(
    held: &mut [u8; 8],
    numbers: &mut [usize; 3],
    text: &[u8],
    output: &mut [u8],
) -> Answer
    ensures { PartLent false held.old numbers.old text.now output.old result held.new numbers.new output.new }
{
    lent::script_raw_part(held, numbers, text, output)
}

// Ends a raw script: `lent::script_raw_finish`. The state is lent in the same way.
#[unsafe(no_mangle)]
pub extern "C" fn lintelrye_script_raw_finish_7(
    held: &mut [u8; 8],
    numbers: &mut [usize; 3],
    output: &mut [u8],
) -> Answer
    ensures { PartLent true held.old numbers.old [] output.old result held.new numbers.new output.new }
{
    lent::script_raw_finish(held, numbers, output)
}
