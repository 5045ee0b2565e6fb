// The work of a job, in the order in which a call does it: a glance at the text, how far it is valid, the job that does it quickest, the verdict (by a
// measure, or without one where the output has room for any result), and the writing. What depends on the job is one match, outside of every loop; the
// rooms below do it.
// What is known of job, scan and text stands in each contract: frame alone would make a type of the three, for two calls, and every arm below would take it apart.
ghost use Rattle.std.specs.Prelude.{true, false, ◌≡◌, List, ℕ, ◌-◌, ◌≤◌, length, IfSome};
ghost use Rattle.rules.specs.Bytes.{over};
ghost use Rattle.rules.specs.Moves.{through, result as result_of, taken};
ghost use Rattle.rules.specs.Utf8.{valid_to};
ghost use Rattle.rules.specs.Answers.{Measures, whole};
ghost use Rattle.jobs.specs.Jobs.{rule_by, counted_for, Fits, Low, Seen, Judged};

use crate::job::Job;
use encode_html::Scan;
use readers::general;
use rules::{Html, Language, Left, Measured, Notation};

// How a call on a valid text passes: nothing is replaced, with the first reference that stays; or
// the result is to be written. Two ways to pass, no Option: neither is an absence.
#[derive(Clone, Copy)]
pub enum Way {
    Same(Option<Left>),
    Written,
}

// Why a call on a valid text is refused: the job takes the text up to this place only; or the
// result needs this room. Both are the errors of `judge`.
#[derive(Clone, Copy)]
pub enum Stop {
    NotAForm(usize),
    NoRoom(usize),
}

// Returns the HTML context whose replaced places a first look counts for a job, if any:
// ascii_quoted writes ASCII as `quoted` does.
fn counted_for(job: Job) -> Option<Html>
    ensures { result ≡ counted_for job }
{
    match job {
        Job::EncodeHtml(h) => Some(h),
        Job::EncodeAscii => Some(Html::Quoted),
        _ => None,
    }
}

// Takes a first look at a text. That of the HTML encoders tells how the encoding grows, how many places are replaced and, by the way, whether the text is
// ASCII (`high` is 0); most other jobs have none.
pub fn glance(job: Job, text: &[u8]) -> Scan
    requires { length text.now ≤ 65536 }
    ensures { Seen job result text.now }
{
    match counted_for(job) {
        Some(h) => encode_html::survey(h, text),
        None => Scan {
            high: 1,
            grow: 0,
            replaced: 0,
        },
    }
}

// Returns the job that does the same to this text as `job` does, in the quickest way: an ASCII text is encoded in ascii_quoted as in `quoted`.
// `scan` is what the glance told of it.
pub fn settled(job: Job, scan: Scan) -> Job
    ensures { (t : List ℕ) → Seen job scan t → (through (rule_by result) t ≡ through (rule_by job) t) × Seen result scan t }
{
    match job {
        Job::EncodeAscii if scan.high == 0 => Job::EncodeHtml(Html::Quoted),
        _ => job,
    }
}

// Returns the length of the longest valid prefix. Where `high` is 0 it is ASCII, and needs no look.
pub fn valid_to(text: &[u8], high: usize) -> usize
    requires { Low high text.now }
    ensures { result ≡ valid_to text.now }
{
    if high == 0 {
        return text.len();
    }
    utf8::valid_to(text)
}

// Returns a length that no result of a job is above, for a text of `size` bytes, where the job
// takes every text as a whole and the bound spares a measure: an encoding is at most six times as
// long as its text, and what decode or browse makes of it at most a fifth longer. HTML is measured
// by the glance, and ascii_quoted always, since a reference can be 22 bytes for 3; read, and decode
// of a JSON string, may refuse a text for its form.
fn longest(job: Job, size: usize) -> Option<usize>
    requires { size ≤ 65536 }
    ensures { (t : List ℕ) → length t ≡ size → (room : ℕ) → IfSome result (λ most. most ≤ room → Fits (rule_by job) t room) }
{
    match job {
        Job::EncodeString(_, _) => Some(6 * size),
        Job::EncodeRaw => Some(6 * size),
        Job::DecodeReferences => Some(size + size / 5),
        Job::DecodeString(_, _) => Some(size + size / 5),
        Job::BrowseReferences(_) => Some(size + size / 5),
        _ => None,
    }
}

// Reports whether a call needs no measure, since it copies and `room` holds any result.
fn fits_any(job: Job, borrows: bool, text: &[u8], room: usize) -> bool
    requires { length text.now ≤ 65536 }
    ensures { result ≡ true → (borrows ≡ false) × Fits (rule_by job) text.now room }
{
    match longest(job, text.len()) {
        Some(most) => !borrows && most <= room,
        None => false,
    }
}

// Returns what is known of the result of a job that takes a whole text, of `size` bytes, leaves no
// reference, and makes the result one byte longer than the text for each place that it replaces.
fn by_ones(length: usize, size: usize) -> Measured
    requires { size ≤ length }
    ensures { result ≡ whole length size (length - size) }
{
    Measured::whole(length, size, length - size)
}

// Measures what a job makes of a valid text; `scan` is what the glance told.
#[tactic(auto, unfolding(crate::specs::Jobs::rule_by, rules::specs::Operations::decode_step))]
fn measure(job: Job, scan: Scan, text: &[u8]) -> Measured
    requires { (length text.now ≤ 65536) × (valid_to text.now ≡ length text.now) × Seen job scan text.now }
    ensures { Measures result (through (rule_by job) text.now) }
{
    match job {
        Job::EncodeHtml(_) => { Measured::whole(text.len() + scan.grow, text.len(), scan.replaced) }
        Job::EncodeString(Notation::Script, quotes) => {
            encode_strings::measure(Notation::Script, quotes, text)
        }
        Job::EncodeString(Notation::Style, quotes) => {
            encode_strings::measure(Notation::Style, quotes, text)
        }
        Job::EncodeString(Notation::Json, quotes) => {
            encode_strings::measure(Notation::Json, quotes, text)
        }
        Job::EncodeRaw => by_ones(encode_raw::measure(text), text.len()),
        Job::EncodeAscii => encode_ascii::measure(text),
        Job::DecodeReferences => decode_html::measure(text),
        Job::DecodeString(Language::Script, quotes) => {
            decode_strings::measure(Language::Script, quotes, text)
        }
        Job::DecodeString(Language::Style, quotes) => {
            decode_strings::measure(Language::Style, quotes, text)
        }
        Job::DecodeJson => decode_json::measure(text),
        Job::BrowseReferences(kind) => browse_html::measure(kind, text),
        Job::Read(context) => general::measure_read(context, text),
    }
}

// Judges a call on a valid text whose output has `room` bytes, by the rows of the refusal table
// that are left; `scan` is what the glance told.
pub fn judge(job: Job, scan: Scan, borrows: bool, text: &[u8], room: usize) -> Result<Way, Stop>
    requires { (length text.now ≤ 65536) × (valid_to text.now ≡ length text.now) × Seen job scan text.now }
    ensures { Judged (through (rule_by job) text.now) text.now borrows room result }
{
    if fits_any(job, borrows, text, room) {
        return Ok(Way::Written);
    }
    let found = measure(job, scan, text);
    if found.place < text.len() {
        return Err(Stop::NotAForm(found.place));
    }
    if found.replaced == 0 {
        return Ok(Way::Same(found.left));
    }
    if room < found.length {
        return Err(Stop::NoRoom(found.length));
    }
    Ok(Way::Written)
}

// Writes what a job makes of a valid text that it takes as a whole to the start of `output`; what lies past it keeps its values. `scan` is what the
// glance told.
#[tactic(auto, unfolding(crate::specs::Jobs::rule_by, rules::specs::Operations::decode_step))]
pub fn write(job: Job, scan: Scan, text: &[u8], output: &mut [u8]) -> Measured
    requires text_len_bound { (length text.now ≤ 65536) × (valid_to text.now ≡ length text.now) × Seen job scan text.now }
    requires text_value { (taken (through (rule_by job) text.now) ≡ text.now) × (length (result_of (through (rule_by job) text.now)) ≤ length output.old) }
    ensures fact { Measures result (through (rule_by job) text.now) }
    ensures output_after { output.new ≡ over (result_of (through (rule_by job) text.now)) output.old }
{
    match job {
        Job::EncodeHtml(h) => {
            let length = encode_html::write(h, text, scan.grow, output);
            Measured::whole(length, text.len(), scan.replaced)
        }
        Job::EncodeString(Notation::Script, quotes) => {
            strings_ahead::write(Notation::Script, quotes, text, output)
        }
        Job::EncodeString(Notation::Style, quotes) => {
            strings_ahead::write(Notation::Style, quotes, text, output)
        }
        Job::EncodeString(Notation::Json, quotes) => {
            strings_ahead::write(Notation::Json, quotes, text, output)
        }
        Job::EncodeRaw => by_ones(encode_raw::write(text, output), text.len()),
        Job::EncodeAscii => encode_ascii::write(text, output),
        Job::DecodeReferences => decode_html::write(text, output),
        Job::DecodeString(Language::Script, quotes) => {
            decode_strings::write(Language::Script, quotes, text, output)
        }
        Job::DecodeString(Language::Style, quotes) => {
            decode_strings::write(Language::Style, quotes, text, output)
        }
        Job::DecodeJson => decode_json::write(text, output),
        Job::BrowseReferences(kind) => browse_html::write(kind, text, output),
        Job::Read(context) => general::write_read(context, text, output),
    }
}
