// Jobs: which work an operation in a context is, and that work by the crates below, each behind one match.
#![tactic(auto)]

pub mod job;
pub mod work;
