// Which context goes where: whatever is typed, what encode writes stays in the place where it is put, and the place holds the text. The table is
// specs/Matrix.antt, the laws are in proofs/.
#![tactic(auto)]

// The number of places in the table.
pub const PLACES: u64 = 16;
