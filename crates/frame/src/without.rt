// A long text in which nothing is replaced since it has none of the one byte at which the job replaces anything: one look tells so, and that it is valid.
ghost use Rattle.std.specs.Prelude.{true, ◌≡◌, None};
ghost use Rattle.jobs.specs.Jobs.{rule_by, Same};

use jobs::job::Job;

// A text up to this length is not looked at: it is plain, or has something to replace.
const SHORT: usize = 64;

// Reports whether a look finds nothing that the job replaces; false also for a text or a job that is not looked at.
pub fn has_nothing(job: Job, text: &[u8]) -> bool
    ensures { result ≡ true → Same (rule_by job) text.now None }
{
    if text.len() <= SHORT || rules::TEXT_LIMIT < text.len() {
        return false;
    }
    match job {
        Job::EncodeRaw => plain::look::is_without(b'<', text),
        Job::DecodeReferences => plain::look::is_without(b'&', text),
        Job::BrowseReferences(_) => plain::look::is_without(b'&', text),
        _ => false,
    }
}
