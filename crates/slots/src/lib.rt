// Words against state: one slot for each name, the stacks of active `$e` and `$d`, and the marks of a `$d`.
// Functions promise equations over the words, and laws say what these stand for; `check_math_symbol` promises the definition.
#![tactic(auto)]

use paper::Atom;

pub mod cells;
pub mod global;
pub mod look;
pub mod mark;
pub mod stack;

/// What a math token is where it stands.
#[derive(Clone, Copy)]
pub enum CheckedToken {
    Inactive,
    Constant(Atom),
    Variable(Atom),
}
