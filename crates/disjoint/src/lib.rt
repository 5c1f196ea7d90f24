// Mandatory pairs and rows: counted in the work area, and found in their order by the rows themselves.
#![tactic(auto)]

pub mod draw;
pub mod tally;
