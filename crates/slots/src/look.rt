// Look-ups of what is active here: the nested `$v` and the `$f` of a name, and what a symbol is.
// Two functions record what the slots answer later.
ghost use Rattle.std.specs.Prelude.{◌≡◌, ◌+◌, ◌*◌, ◌<◌, ◌≤◌};
ghost use Rattle.area.specs.Cells.{symbol_cell, word};
ghost use Rattle.slots.specs.Kept.{Room};
ghost use Rattle.slots.specs.Slots.{nested_slot, float_slot, sense_nested, checked_of, Sensed, with_nested, with_float};

use crate::CheckedToken;
use crate::cells::{of_statement, of_symbol, put_symbol};
use nameck::lookup::{Global, lookup_symbol};
use paper::{Atom, StatementOffset, StatementRow, TokenOffset};

/// The nested `$v` token of a name that is active at an offset.
pub fn nested_of(work: &[u32], n: usize, atom: Atom, here: StatementOffset) -> Option<TokenOffset>
    requires { Room work.now n × (atom.0 < n) }
    ensures { result ≡ nested_slot work.now n atom.0 here.0 }
{
    let end = of_symbol(work, n, atom.0 as usize, area::NESTED_END);
    if end <= here.0 {
        return None;
    }
    let at = of_symbol(work, n, atom.0 as usize, area::NESTED);
    Some(TokenOffset(at))
}

/// The row of the `$f` of a variable that is active at an offset.
pub fn lookup_float(
    work: &[u32],
    n: usize,
    atom: Atom,
    here: StatementOffset,
) -> Option<StatementRow>
    requires { Room work.now n × (atom.0 < n) × (3 * word work.now (symbol_cell n atom.0 4) ≤ n) }
    ensures { result ≡ float_slot work.now n atom.0 here.0 }
{
    let f = of_symbol(work, n, atom.0 as usize, area::FLOAT).checked_sub(1)?;
    let end = of_statement(work, n, f as usize, area::END);
    if end <= here.0 {
        return None;
    }
    Some(StatementRow(f))
}

/// Whether a nested `$v` makes a name a variable.
pub fn by_nested(work: &[u32], n: usize, atom: Atom, here: StatementOffset) -> CheckedToken
    requires { Room work.now n × (atom.0 < n) }
    ensures { result ≡ checked_of (sense_nested (nested_slot work.now n atom.0 here.0)) atom.0 }
{
    match nested_of(work, n, atom, here) {
        Some(_) => CheckedToken::Variable(atom),
        None => CheckedToken::Inactive,
    }
}

/// What a symbol is at a statement that starts at `here`.
pub fn check_math_symbol(work: &[u32], n: usize, atom: Atom, here: StatementOffset) -> CheckedToken
    requires { Room work.now n × (atom.0 < n) }
    ensures { Sensed work.now n atom.0 here.0 result }
{
    match lookup_symbol(work, n, atom) {
        Some(Global::Constant(g)) if g.0 < here.0 => CheckedToken::Constant(atom),
        Some(Global::Variable(g)) if g.0 < here.0 => CheckedToken::Variable(atom),
        _ => by_nested(work, n, atom, here),
    }
}

/// Records a nested `$v` token with its end.
pub fn record_nested(work: &mut [u32], n: usize, atom: Atom, offset: TokenOffset, end: u32)
    requires { Room work.old n × (atom.0 < n) }
    ensures { work.new ≡ with_nested work.old n atom.0 offset.0 end }
{
    put_symbol(work, n, atom.0 as usize, area::NESTED, offset.0);
    put_symbol(work, n, atom.0 as usize, area::NESTED_END, end);
}

/// Records an accepted `$f` by its row.
pub fn record_float(work: &mut [u32], n: usize, atom: Atom, row: StatementRow)
    requires { Room work.old n × (atom.0 < n) × (row.0 < n) }
    ensures { work.new ≡ with_float work.old n atom.0 row.0 }
{
    put_symbol(work, n, atom.0 as usize, area::FLOAT, row.0 + 1);
}
