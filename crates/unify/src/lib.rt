// Entries of the lent stack against statements, in words (document 02, A1): found, bound, matched, written, moved.
// An entry is the atom of its typecode with 2^31 added, then the atoms of its symbols; no statement is known here.
#![tactic(auto)]

pub mod bind;
pub mod entry;
pub mod expand;
pub mod matching;
