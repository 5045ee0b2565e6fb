// The rules at their edges: tables read off docs/RULES.md by hand (specs/), each held against the definitions of the crate rules by computing (proofs/).
#![tactic(auto)]

// The number of tables of edges: calls and programs, browse, ascii_quoted, script data, raw script by parts, pages.
pub const TABLES: u64 = 6;
