// What a quick reader tells its caller.
#![tactic(auto)]

// What came of it: nothing was done, the text goes the general way; or the text is a form in which
// nothing is replaced; or the result of this length has no room; or it is written, with this length
// and so many replaced characters. One enum for the four, since an Option of a Result of an Option
// would say no more.
#[derive(Clone, Copy)]
pub enum Outcome {
    Untried,
    Same,
    NoRoom(usize),
    Written(usize, usize),
}
