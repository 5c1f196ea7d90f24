// The fold over all statements: what is closed is dropped, the statement is checked by its kind, and marked if accepted.
// Lent an empty buffer the fold measures the diagnostics; lent a long one it writes them.
ghost use Rattle.std.specs.Prelude.{◌≡◌, ◌+◌, ◌*◌, ◌<◌, ◌≤◌, set};
ghost use Rattle.area.specs.Cells.{statement_cell};
ghost use Rattle.slots.specs.Kept.{Room};
ghost use Rattle.scopeck.specs.Scope.{SomePart, GivesPart};
ghost use Rattle.scopeck.specs.Fold.{SomeText, GivesText, accept_word, SomeBefore, Steps, Forgotten, SomeBlank, ChecksBlank, SomeWhole, ChecksAll};

use crate::Scope;
use crate::kinds::{
    scope_check_assert, scope_check_constant, scope_check_dv, scope_check_essential,
    scope_check_float, scope_check_variable,
};
use crate::rows::kind_of;
use paper::StatementOffset;
use reader::kind::Kind;
use slots::cells::{of_statement, put_statement, put_symbol};
use slots::stack::still_active;

/// A statement by its kind, whose math string is `part`.
pub fn check_part(
    part: &[u8],
    work: &mut [u32],
    n: usize,
    diags: &mut [u8],
    st: Scope,
    row: usize,
) -> Scope
    requires { SomePart work.old part.now n st row }
    ensures { GivesPart work.old work.new part.now diags.old diags.new n st result row }
{
    match kind_of(work, n, row) {
        Kind::C => scope_check_constant(part, work, n, diags, st, row),
        Kind::V => scope_check_variable(part, work, n, diags, st, row),
        Kind::D => scope_check_dv(part, work, n, diags, st, row),
        Kind::F => scope_check_float(part, work, n, diags, st, row),
        Kind::E => scope_check_essential(part, work, n, diags, st, row),
        Kind::A | Kind::P => scope_check_assert(part, work, n, diags, st, row),
    }
}

/// A statement of the text: its math string is a part that starts in the middle.
pub fn check_kind(
    text: &[u8],
    work: &mut [u32],
    n: usize,
    diags: &mut [u8],
    st: Scope,
    row: usize,
) -> Scope
    requires { SomeText text.now work.old n st row }
    ensures { GivesText text.now work.old work.new diags.old diags.new n st result row }
{
    let from = of_statement(work, n, row, area::FROM) as usize;
    let to = of_statement(work, n, row, area::TO) as usize;
    check_part(&text[from..to], work, n, diags, st, row)
}

/// Marks a statement: accepted if the place in the diagnostics did not move.
pub fn mark_accepted(work: &mut [u32], n: usize, row: usize, before: usize, after: usize)
    requires { Room work.old n × (3 * row + 3 ≤ n) }
    ensures { work.new ≡ set work.old (statement_cell row 8) (accept_word before after) }
{
    put_statement(work, n, row, area::ACCEPTED, u32::from(before == after));
}

/// The state after one statement.
pub fn check_statement(
    text: &[u8],
    work: &mut [u32],
    n: usize,
    diags: &mut [u8],
    st: Scope,
    row: usize,
) -> Scope
    requires { SomeBefore text.now work.old n st row }
    ensures { Steps text.now work.old work.new diags.old diags.new n st result row }
{
    let here = StatementOffset(of_statement(work, n, row, area::AT));
    let es = still_active(work, n, area::ESS, st.es, here);
    let ds = still_active(work, n, area::DIS, st.ds, here);
    let next = check_kind(text, work, n, diags, Scope { es, ds, ..st }, row);
    mark_accepted(work, n, row, st.diags, next.diags);
    next
}

/// Takes away what a fold has recorded for the names.
pub fn forget_all(work: &mut [u32], n: usize, names: usize)
    requires { Room work.old n × (names ≤ n) }
    ensures { Forgotten work.old work.new n names }
{
    for a in 0..names {
        put_symbol(work, n, a, area::NESTED_END, 0);
        put_symbol(work, n, a, area::FLOAT, 0);
    }
}

/// The statements of all rows, where nothing is recorded yet.
pub fn check_rows(text: &[u8], work: &mut [u32], n: usize, diags: &mut [u8], rows: usize) -> Scope
    requires { SomeBlank text.now work.old n rows }
    ensures { ChecksBlank text.now work.old work.new diags.old diags.new n rows result }
{
    let mut st = Scope {
        es: 0,
        ds: 0,
        diags: 0,
    };
    for row in 0..rows {
        st = check_statement(text, work, n, diags, st, row);
    }
    st
}

/// The fold over all statements of a text that is named.
pub fn scope_check_all(
    text: &[u8],
    work: &mut [u32],
    n: usize,
    diags: &mut [u8],
    rows: usize,
    names: usize,
) -> Scope
    requires { SomeWhole text.now work.old n rows names }
    ensures { ChecksAll text.now work.old work.new diags.old diags.new n rows names result }
{
    forget_all(work, n, names);
    check_rows(text, work, n, diags, rows)
}
