// Calls that are answered by one function of a room below, where that is quicker than the general way of a glance, a verdict and a result.
ghost use Rattle.jobs.specs.Jobs.{rule_by};
ghost use Rattle.frame.specs.Tries.{Tries};

use crate::refusals::Refusal;
use jobs::job::Job;
use outcomes::Outcome;
use rules::Answer;

// Reads a text, if there is a quick way for its context and length; of any other job, and of any
// other text, nothing is done yet, and there is no answer.
pub fn read(
    job: Job,
    borrows: bool,
    text: &[u8],
    output: &mut [u8],
) -> Result<Option<Answer>, Refusal>
    ensures { Tries (rule_by job) borrows text.now output.old output.new result }
{
    let Job::Read(context) = job else {
        return Ok(None);
    };
    match readers::read(context, text, output) {
        Outcome::Untried => Ok(None),
        Outcome::Same => {
            let answer = crate::unchanged(borrows, None, text, output)?;
            Ok(Some(answer))
        }
        Outcome::NoRoom(length) => Err(Refusal::NoRoom(length)),
        Outcome::Written(length, replaced) => { Ok(Some(crate::passed(length, replaced, None))) }
    }
}
