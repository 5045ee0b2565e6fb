// A page of fields in one call: a list of records, each the copying call of encode on a part of one text, written one behind the other into one output.
// All of the work is in `turn`, the call of one record; both forms of the call are a loop of turns.
#![tactic(auto)]

ghost use Rattle.std.specs.Prelude.{◌≡◌, ◌++◌, ◌≤◌, length, drop};
ghost use Rattle.rules.specs.Pages.{in_text, single as single_of, leaves, PageAllowed, field_size, field_numbers, field_as, NumbersAllowed};
ghost use Rattle.frame.specs.Refused.{refused};
ghost use Rattle.page.specs.Turns.{begun, outside_by, turned, output_after};

use frame::Refusal;
use rules::{Answer, AnyContext, FIELD_LIMIT, Field, Filled, Operation, PASSED, TOO_LONG};

// The numbers of a record behind its context: start, length, begins, and the answer's.
pub const FIELD_NUMBERS: usize = 10;

// What a turn leaves: the answer of the page so far, where the results end, and the record.
#[derive(Clone, Copy)]
pub struct Turned {
    pub filled: Filled,
    pub end: usize,
    pub field: Field,
}

// Returns the answer of a page of so many records before the first is encoded: TOO_LONG above the limit, else as if all of them passed.
fn begin(count: usize) -> Filled
    ensures { result ≡ begun count }
{
    if FIELD_LIMIT < count {
        return Filled {
            status: TOO_LONG,
            passed: 0,
        };
    }
    Filled {
        status: PASSED,
        passed: count,
    }
}

// Reports whether the part that a record names lies within the text.
fn in_text(text: &[u8], field: Field) -> bool
    ensures { result ≡ in_text text.now field }
{
    field.start <= text.len() && field.length <= text.len() - field.start
}

// Returns the refusal of a record whose part leaves the text: BAD_CONTEXT where encode has no such context, else BAD_RANGE.
fn outside(context: u32) -> Refusal
    ensures { refused result ≡ outside_by context }
{
    match rules::context_of(context) {
        AnyContext::Unknown => Refusal::BadContext,
        _ => Refusal::BadRange,
    }
}

// Encodes the part of one record into what is free of the output.
fn single(text: &[u8], field: Field, free: &mut [u8]) -> Answer
    ensures { (result ≡ single_of text.now field free.old) × (free.new ≡ leaves text.now field free.old) }
{
    if in_text(text, field) {
        let end = field.start + field.length;
        let part = &text[field.start..end];
        frame::call(Operation::Encode, field.context, false, part, free)
    } else {
        Answer::from(outside(field.context))
    }
}

// Encodes one record behind the results so far, which end at `end`; after a refusal it does nothing. A refusal of this record becomes the page's answer,
// and as many records passed as there are in front.
fn turn(
    output: &mut [u8],
    filled: Filled,
    end: usize,
    index: usize,
    field: Field,
    text: &[u8],
) -> Turned
    ensures { (result ≡ turned text.now filled end index field output.old) × (output.new ≡ output_after text.now filled end field output.old) }
{
    if filled.status != PASSED {
        return Turned { filled, end, field };
    }
    let at = end.min(output.len());
    let answer = single(text, field, &mut output[at..]);
    if answer.status != PASSED {
        let filled = Filled {
            status: answer.status,
            passed: index,
        };
        let field = Field {
            begins: 0,
            answer,
            ..field
        };
        return Turned { filled, end, field };
    }
    let field = Field {
        begins: end,
        answer,
        ..field
    };
    Turned {
        filled,
        end: end + answer.length,
        field,
    }
}

// Fills a page: each record is the copying call of encode on its part of the text, behind the results of the records before it. The first refusal stops
// the page; later records and the bytes past the last result stay as they were. Above 256 records nothing is touched: each record is written back as it is.
pub fn fill_page(fields: &mut [Field], text: &[u8], output: &mut [u8]) -> Filled
    ensures { PageAllowed text.now fields.old output.old result fields.new output.new }
{
    let mut filled = begin(fields.len());
    let mut end = 0;
    for (index, field) in fields.iter_mut().enumerate() {
        let turned = turn(output, filled, end, index, *field, text);
        *field = turned.field;
        filled = turned.filled;
        end = turned.end;
    }
    filled
}

// Returns the record of a context and of the numbers at the start of `numbers`.
fn read_field(context: u32, numbers: &[usize]) -> Field
    requires { field_size ≤ length numbers.now }
    ensures { result ≡ field_as context numbers.now }
{
    let answer = Answer {
        status: numbers[3],
        length: numbers[4],
        same: numbers[5],
        replaced: numbers[6],
        place: numbers[7],
        left: numbers[8],
        reason: numbers[9],
    };
    Field {
        context,
        start: numbers[0],
        length: numbers[1],
        begins: numbers[2],
        answer,
    }
}

// Writes the numbers of a record to the start of `numbers`.
fn write_field(field: Field, numbers: &mut [usize])
    requires { field_size ≤ length numbers.old }
    ensures { numbers.new ≡ field_numbers field ++ drop field_size numbers.old }
{
    let answer = field.answer;
    let all = [
        field.start,
        field.length,
        field.begins,
        answer.status,
        answer.length,
        answer.same,
        answer.replaced,
        answer.place,
        answer.left,
        answer.reason,
    ];
    numbers[..FIELD_NUMBERS].copy_from_slice(&all);
}

// Fills a page whose records are given as numbers: for each context `FIELD_NUMBERS` numbers, in the order of the record. There are as many records as
// both slices hold.
pub fn fill_numbers(
    contexts: &[u32],
    numbers: &mut [usize],
    text: &[u8],
    output: &mut [u8],
) -> Filled
    ensures { NumbersAllowed text.now contexts.now numbers.old output.old result numbers.new output.new }
{
    let count = (numbers.len() / FIELD_NUMBERS).min(contexts.len());
    let mut filled = begin(count);
    let mut end = 0;
    for index in 0..count {
        let first = index * FIELD_NUMBERS;
        let field = read_field(contexts[index], &numbers[first..]);
        let turned = turn(output, filled, end, index, field, text);
        write_field(turned.field, &mut numbers[first..]);
        filled = turned.filled;
        end = turned.end;
    }
    filled
}
