// The strict reader by the quickest way for a context and a length, where there is one that is quicker than measuring and writing.
#![tactic(auto)]

pub mod general;
mod short;

ghost use Rattle.rules.specs.declared.Context.TheVariants.{InAscii};
ghost use Rattle.outcomes.specs.Outcomes.{Reads};

use outcomes::Outcome;
use rules::{Context, Html, Language};

// Reads a text of ascii_quoted, if it is ASCII and a form of `quoted`: it is a form of both then, and stands for the same text. No form has a `<`.
fn read_low(text: &[u8], output: &mut [u8]) -> Outcome
    ensures { Reads InAscii text.now output.old output.new result }
{
    if rules::TEXT_LIMIT < text.len() {
        return Outcome::Untried;
    }
    if !plain::look::is_without(b'<', text) {
        return Outcome::Untried;
    }
    read_html::read(Html::Quoted, text, output)
}

// Reads a text, if there is a quick way for it; tells the caller otherwise, and then the output is as it was.
pub fn read(c: Context, text: &[u8], output: &mut [u8]) -> Outcome
    ensures { Reads c text.now output.old output.new result }
{
    if text.len() <= short::LONGEST {
        return short::read(c, text, output);
    }
    match c {
        Context::InHtml(h) => read_html::read(h, text, output),
        Context::InScript(q) => read_strings::read(Language::Script, q, text, output),
        Context::InStyle(q) => read_strings::read(Language::Style, q, text, output),
        Context::InAscii => read_low(text, output),
        Context::InJson => Outcome::Untried,
    }
}
