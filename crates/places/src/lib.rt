// The places of a page, a script, a style sheet and a JSON text where a written form is put, in the words of their standards: definitions (specs/), and samples
// that pin them (proofs/).
#![tactic(auto)]

// The number of places: six of a page, two elements, and strings of four kinds.
pub const PLACES: u64 = 16;
