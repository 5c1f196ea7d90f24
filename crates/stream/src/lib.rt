// The record streams: writers of numbers, strings and records into a lent buffer, and the reading of a frame stream.
// Every writer answers the place after its bytes, so the same call measures where the lent buffer is empty.
#![tactic(auto)]

pub mod bits;
pub mod field;
pub mod record;
pub mod state;
pub mod view;
pub mod walk;
pub mod write;
