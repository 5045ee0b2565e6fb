// What a call is to do: an operation in a context, brought together.
ghost use Rattle.std.specs.Prelude.{◌≡◌};
ghost use Rattle.rules.specs.Browsing.{kind_of};
ghost use Rattle.rules.specs.Contexts.{context_of};
ghost use Rattle.rules.specs.Encoding.{encode_step};
ghost use Rattle.rules.specs.Operations.{browse_in, decode_step, rule_in, rule_raw, rule_of};
ghost use Rattle.jobs.specs.Jobs.{rule_by, rule_at};

use rules::{AnyContext, Context, Html, Kind, Language, Notation, Operation, Quotes};

// The jobs. decode of references is the same in each HTML context; browse reads them as in text, or as in the value of an attribute.
#[derive(Clone, Copy)]
pub enum Job {
    EncodeHtml(Html),
    EncodeString(Notation, Quotes),
    EncodeRaw,
    EncodeAscii,
    DecodeReferences,
    DecodeString(Language, Quotes),
    DecodeJson,
    BrowseReferences(Kind),
    Read(Context),
}

// Returns what references in a context are part of, for browse: text, or the value of an attribute.
fn kind_of(h: Html) -> Kind
    ensures { result ≡ kind_of h }
{
    match h {
        Html::TextMinimal | Html::Text | Html::Safe => Kind::InText,
        Html::DoubleQuoted | Html::SingleQuoted | Html::Quoted | Html::Unquoted => {
            Kind::InAttribute
        }
    }
}

// Returns the job of encode in a context.
#[tactic(auto, unfolding(crate::specs::Jobs::rule_by))]
fn encode_job(context: Context) -> Job
    ensures { rule_by result ≡ encode_step context }
{
    match context {
        Context::InHtml(h) => Job::EncodeHtml(h),
        Context::InScript(quotes) => Job::EncodeString(Notation::Script, quotes),
        Context::InStyle(quotes) => Job::EncodeString(Notation::Style, quotes),
        Context::InJson => Job::EncodeString(Notation::Json, Quotes::Double),
        Context::InAscii => Job::EncodeAscii,
    }
}

// Returns the job of decode in a context: the HTML contexts and ascii_quoted share one decoder.
#[tactic(auto, unfolding(crate::specs::Jobs::rule_by, rules::specs::Operations::decode_step))]
fn decode_job(context: Context) -> Job
    ensures { rule_by result ≡ decode_step context }
{
    match context {
        Context::InHtml(_) => Job::DecodeReferences,
        Context::InScript(quotes) => Job::DecodeString(Language::Script, quotes),
        Context::InStyle(quotes) => Job::DecodeString(Language::Style, quotes),
        Context::InJson => Job::DecodeJson,
        Context::InAscii => Job::DecodeReferences,
    }
}

// Returns the job of browse in a context: only where references are, those of ascii_quoted as in
// the value of an attribute.
#[tactic(auto, unfolding(crate::specs::Jobs::rule_by))]
fn browse_job(context: Context) -> Option<Job>
    ensures { rule_at result ≡ browse_in context }
{
    match context {
        Context::InHtml(h) => Some(Job::BrowseReferences(kind_of(h))),
        Context::InAscii => Some(Job::BrowseReferences(Kind::InAttribute)),
        Context::InScript(_) | Context::InStyle(_) | Context::InJson => None,
    }
}

// Returns the job of an operation in a context that has units: only browse has none in some of
// them.
#[tactic(auto, unfolding(crate::specs::Jobs::rule_by))]
fn units_job(operation: Operation, context: Context) -> Option<Job>
    ensures { rule_at result ≡ rule_in operation context }
{
    match operation {
        Operation::Encode => Some(encode_job(context)),
        Operation::Decode => Some(decode_job(context)),
        Operation::Read => Some(Job::Read(context)),
        Operation::Browse => browse_job(context),
    }
}

// Returns the job of an operation in script_raw: only encode has it.
#[tactic(auto, unfolding(crate::specs::Jobs::rule_by))]
fn raw_job(operation: Operation) -> Option<Job>
    ensures { rule_at result ≡ rule_raw operation }
{
    match operation {
        Operation::Encode => Some(Job::EncodeRaw),
        Operation::Decode | Operation::Read | Operation::Browse => None,
    }
}

// Returns the job of an operation in the context of a number; None where the operation has no such
// context.
pub fn job_of(operation: Operation, number: u32) -> Option<Job>
    ensures { rule_at result ≡ rule_of operation (context_of number) }
{
    match rules::context_of(number) {
        AnyContext::Units(context) => units_job(operation, context),
        AnyContext::ScriptRaw => raw_job(operation),
        AnyContext::Unknown => None,
    }
}
