// Lintelrye: HTML escaping and unescaping with proofs. No call allocates, panics or fails to end, and no caller has to check anything first.
//
// Each call takes a context by its number, a text, and an output buffer that the caller lends, and returns seven numbers:
//   status    0, or the first refusal of the table below that applies;
//   length    the length of the result (after NO_ROOM the length needed, after any other refusal 0);
//   same      1 exactly if nothing was replaced, so that the result is the text;
//   replaced  how many places were replaced: characters by encode and take, references or escapes by decode and browse (after a refusal 0);
//   place     after NOT_UTF8, CUT_SHORT, NOT_A_FORM and LONE_SURROGATE the length of the longest correct prefix of the text, else 0;
//   left      decode in the HTML contexts: the place of the `&` of the first reference that stayed, 0 if none did (after a refusal 0);
//   reason    why it stayed: 1 no `;` before the next `&` or the end, 2 an empty body, 3 an unknown name, 4 a byte that is no digit, 5 a number that is
//             not allowed; 0 if none did (after a refusal 0).
// After status 0 the first `length` bytes of the output are the result and the other bytes keep their values; after a refusal all keep them.
// A borrowing call does not write, and needs no room, where nothing is replaced: `view` then returns the text itself.
// The operation read, which undoes what encode writes, has two calls beside each other: `check` takes no output and returns status, length and place;
// `take` writes.
//
// The refusals, in the order in which they are checked, but for FINISHED, which comes first in the calls for parts; at most one of NOT_UTF8 and CUT_SHORT
// applies, and at most one of NOT_A_FORM and LONE_SURROGATE:
//   BAD_CONTEXT  the operation has no such context: encode has all sixteen, decode and read have 0 to 12, 14 and 15, browse has 0 to 6 and 15;
//   BAD_RANGE    a record of a page only: the part that it names leaves the text;
//   TOO_LONG     the text is longer than 65,536 bytes;
//   NOT_UTF8     the text is not valid UTF-8, and not cut short; `place` is the length of its longest valid prefix;
//   CUT_SHORT    the text ends within a character that more bytes could complete, and is valid up to there; `place` is where that character begins;
//   NOT_A_FORM   read: encode writes no such text; `place` is the length of its longest prefix that is a sequence of the context's units; decode of
//                `json`: RFC 8259 allows no such string; `place` is the length of its longest prefix that it allows;
//   LONE_SURROGATE  decode of `json` only: half a surrogate pair stands alone at `place`, where its backslash is;
//   NO_ROOM      the output is shorter than the result; `length` is the length needed. `check` never gives it.
//
// Choosing a context. What is escaped for one context is not safe in another:
//   - `safe` replaces what `quoted` replaces, and `/`. It is no sanitizer: its result is safe in text and between the quotes of an attribute, and not
//     in scripts, styles, URLs, comments, or names of tags and attributes. No context is for those.
//   - the script and style string contexts are for text between quotes, inside a script or style element. In an event handler or style attribute the
//     result has to be escaped once more, for the attribute.
//   - `script_raw` is for the whole text of a script element, in one call or by the calls for parts below: parts that are escaped one by one by
//     `encode` can still close the element. It is no JSON encoder: it keeps the text from closing the element, and does not make a string or a value of it.
//   - `json` is for text between the quotes of a JSON string, inside a script element or in a JSON document; not in an attribute, where the result has
//     to be escaped once more. decode takes any string that the RFC allows, whoever wrote it.
//   - `ascii_quoted` is for the places of `quoted`, where only ASCII may leave: every other character is written as a reference, by name where HTML
//     has one (the shortest, among equals the first by bytes), else by number.
//
// The contracts cite the definitions of crates/rules/specs: `Allowed` (Refusals.antt) fixes the seven numbers and every byte of the output,
// by the rule of the operation in the context (Operations.antt); `check_of` (Refusals.antt) fixes what `check` answers.
#![tactic(auto)]

pub mod labels;

ghost use Rattle.std.specs.Prelude.{true, false, ◌≡◌};
ghost use Rattle.rules.specs.Contexts.{context_of};
ghost use Rattle.rules.specs.Refusals.{Allowed, checked, check_of};
ghost use Rattle.rules.specs.declared.Operation.TheVariants.{Encode, Decode, Read, Browse};
ghost use Rattle.lintelrye.specs.Viewed.{Viewed};

// The call of an operation that is a value: `call(operation, context, borrows, text, output)`. Each call below is one of these.
pub use frame::call;

// A whole page in one call: `fill_page(fields, text, output)` takes a list of at most 256 records, each a context and a part of one text, and makes the
// copying call of encode for each, in their order, into the part of the output that is still free. Each record receives its answer and where its result
// begins. The first refusal stops the page and is its answer; later records and the bytes past the last result stay as they were. `fill_numbers` is the
// same for records that are given as numbers. Both contracts cite `page_of` (crates/rules/specs/Pages.antt).
pub use page::{FIELD_NUMBERS, fill_numbers, fill_page};

// Where the text of a script element ends: `closing_tag(text)`. It judges text that others wrote; its contract is
// `r ≡ closing_of (now text.entry)` (crates/rules/specs/Closings.antt). `found` is 1 if an end tag in the text ends the element, and `place` is then
// the offset of that tag's `<`. Beware: `found` 0 does not make a text safe to put between `<script>` and `</script>`, since `<!--<script>` hides the end
// tag that follows it. Hand over the text with `</script>` after it: it is right exactly if `place` is the length of the text alone.
pub use scripts::closing_tag;

// A raw script that is longer than a buffer: `script_raw_start()`, then `script_raw_part(state, text, output)` for each part, then
// `script_raw_finish(state, output)`. Each gives an answer and the next state (`RawPart`). The outputs of the passed calls, joined, are one encode in
// `script_raw` of the passed parts joined, wherever they are cut; their contract is `PartAllowed` (crates/rules/specs/Stream.antt). A part call holds back at
// most eight bytes, so a part can need ten bytes more than it has. A refused call gives the state back as it was.
pub use stream::{script_raw_finish, script_raw_part, script_raw_start};

// The operations, the answer records, the contexts and the statuses.
pub use rules::{
    ASCII_QUOTED, Answer, BAD_CONTEXT, BAD_RANGE, CUT_SHORT, Checked, Closing, DOUBLE_QUOTED,
    FIELD_LIMIT, FINISHED, Field, Filled, JSON, LONE_SURROGATE, NO_ROOM, NOT_A_FORM, NOT_UTF8,
    Operation, PASSED, QUOTED, RawPart, RawState, SAFE, SCRIPT_DOUBLE, SCRIPT_QUOTED, SCRIPT_RAW,
    SCRIPT_SINGLE, SINGLE_QUOTED, STYLE_DOUBLE, STYLE_QUOTED, STYLE_SINGLE, TEXT, TEXT_LIMIT,
    TEXT_MINIMAL, TOO_LONG, UNQUOTED,
};

// Escapes `text` for `context`: every character that the context replaces is replaced, everything else is copied.
// A result is at most six times as long as its text; for `ascii_quoted` it has at most 22 bytes for 3 of the text.
pub fn encode(context: u32, text: &[u8], output: &mut [u8]) -> Answer
    ensures { Allowed Encode (context_of context) false text.now output.old result output.new }
{
    call(Operation::Encode, context, false, text, output)
}

// Escapes as `encode` does, as a borrowing call: where nothing is replaced it writes nothing and
// needs no room. Each operation has both calls, since C has a name for each; `call` is the one with
// the operation and the kind of call as values.
pub fn encode_borrowing(context: u32, text: &[u8], output: &mut [u8]) -> Answer
    ensures { Allowed Encode (context_of context) true text.now output.old result output.new }
{
    call(Operation::Encode, context, true, text, output)
}

// Undoes the replacements exactly as html-escape does: character references in the HTML contexts, backslash escapes in strings. Anything else is
// copied, and nothing is decoded twice. A result can be longer than its text, by a fifth at most (`&nGt;`).
pub fn decode(context: u32, text: &[u8], output: &mut [u8]) -> Answer
    ensures { Allowed Decode (context_of context) false text.now output.old result output.new }
{
    call(Operation::Decode, context, false, text, output)
}

// Undoes replacements as `decode` does, as a borrowing call.
pub fn decode_borrowing(context: u32, text: &[u8], output: &mut [u8]) -> Answer
    ensures { Allowed Decode (context_of context) true text.now output.old result output.new }
{
    call(Operation::Decode, context, true, text, output)
}

// Returns what of an answer of `take` a caller without an output can use: its status, length and place; NO_ROOM passes.
fn without_output(answer: Answer) -> Checked
    ensures { result ≡ checked answer }
{
    let status = if answer.status == NO_ROOM {
        PASSED
    } else {
        answer.status
    };
    Checked {
        status,
        length: answer.length,
        place: answer.place,
    }
}

// Tells whether a text is one that encode writes for the context, and how long the text is that was typed: what `take` would answer, without an output.
// Where `take` gives NO_ROOM it passes, with that same length.
pub fn check(context: u32, text: &[u8]) -> Checked
    ensures { result ≡ check_of (context_of context) text.now }
{
    let mut none: [u8; 0] = [0; 0];
    let reply = frame::replied(Operation::Read, context, false, text, &mut none);
    without_output(Answer::from(reply))
}

// Undoes exactly what encode writes and refuses everything else: of what encode wrote it returns the text that was typed. One exception: encode writes
// a NUL in a style string as U+FFFD, and take returns that.
pub fn take(context: u32, text: &[u8], output: &mut [u8]) -> Answer
    ensures { Allowed Read (context_of context) false text.now output.old result output.new }
{
    call(Operation::Read, context, false, text, output)
}

// Undoes what encode writes as `take` does, as a borrowing call.
pub fn take_borrowing(context: u32, text: &[u8], output: &mut [u8]) -> Answer
    ensures { Allowed Read (context_of context) true text.now output.old result output.new }
{
    call(Operation::Read, context, true, text, output)
}

// Undoes character references as a browser does, by the HTML Standard: the longest name counts, 106 names need no `;`, and any other byte ends a number.
// In the contexts of attributes, 2, 3, 4 and 6, a name without `;` stays before `=` or an ASCII letter or digit; 0, 1 and 5 are text. The numbers 0,
// surrogates and above 10FFFF hex give U+FFFD, and 27 from 80 to 9F hex the characters of windows-1252, an en dash for `&#150;`.
pub fn browse(context: u32, text: &[u8], output: &mut [u8]) -> Answer
    ensures { Allowed Browse (context_of context) false text.now output.old result output.new }
{
    call(Operation::Browse, context, false, text, output)
}

// Undoes character references as `browse` does, as a borrowing call.
pub fn browse_borrowing(context: u32, text: &[u8], output: &mut [u8]) -> Answer
    ensures { Allowed Browse (context_of context) true text.now output.old result output.new }
{
    call(Operation::Browse, context, true, text, output)
}

// Returns the result of a call: `text` itself where the answer's `same` is 1, otherwise the first `length` bytes of `output`, or none of them where
// it has fewer. It never refuses.
pub fn view<'a>(text: &'a [u8], output: &'a [u8], answer: Answer) -> &'a [u8]
    ensures { Viewed text.entry output.entry answer result }
{
    if answer.same == 1 {
        return text;
    }
    let n = answer.length;
    if n <= output.len() {
        return &output[..n];
    }
    &output[..0]
}
