// The fold over all statements: the checks of each, and then its frame, into the two streams.
// Lent empty buffers it measures the streams; lent long ones it writes them.
#![tactic(auto)]

pub mod all;
pub mod start;
pub mod turn;
