// The checks of every statement, one after the other: diagnostics, what is recorded, and which statements are accepted.
// The state goes in by value and comes back; the words and the diagnostics buffer are lent.
#![tactic(auto)]

use paper::{Atom, StatementOffset};

pub mod kinds;
pub mod rows;
pub mod statements;

/// How many active accepted `$e` and `$d` there are, and the place reached in the diagnostics.
#[derive(Clone, Copy)]
pub struct Scope {
    pub es: usize,
    pub ds: usize,
    pub diags: usize,
}

/// What a statement's row says: its offset, its label, the start of its math string, the end of its group, and the rows of its math
/// tokens.
#[derive(Clone, Copy)]
pub struct Row {
    pub at: StatementOffset,
    pub label: Atom,
    pub from: u32,
    pub end: u32,
    pub first: usize,
    pub count: usize,
}
