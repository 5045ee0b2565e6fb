// What the quick readers of the HTML contexts share: units as numbers, what is found of a text, and the writing of what it
// reads back as.
#![tactic(auto)]

pub mod fill;
pub mod units;

// What is found of a text that is as a whole units and bytes that are kept: the length of the result, and how many units it has.
#[derive(Clone, Copy)]
pub struct Found {
    pub length: usize,
    pub units: usize,
}
