// The forms of a frame: writers of its variable names, its pool, its expressions and its hypotheses.
// They read the words of the work area, where the frame's variables are numbered, and change none of them.
#![tactic(auto)]

pub mod expression;
pub mod hyps;
pub mod names;
pub mod pool;
pub mod words;
