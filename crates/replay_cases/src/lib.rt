// What replay does with one case of the list: it makes the call, compares, counts and reports.
#![tactic(auto)]

pub mod cases;
pub mod report;

// How far the list is read: the place and the number of the line, the lengths of the text and of
// the result, and whether the last line was met.
#[derive(Clone, Copy)]
pub struct State {
    pub at: usize,
    pub line: u64,
    pub text: usize,
    pub result: usize,
    pub ended: bool,
}
