// The stacks of active `$e` and `$d`: what is closed is dropped, and an accepted one is put on top.
// A stack is kept in one word of the statement rows, from row 0 on.
ghost use Rattle.std.specs.Prelude.{◌≡◌, ◌+◌, ◌*◌, ◌<◌, ◌≤◌, set};
ghost use Rattle.area.specs.Cells.{statement_cell};
ghost use Rattle.slots.specs.Kept.{Room};
ghost use Rattle.slots.specs.Stack.{pop_of, Deep};

use crate::cells::{of_statement, put_statement};
use paper::StatementOffset;

/// The part of a stack that is still active at `here`.
pub fn still_active(
    work: &[u32],
    n: usize,
    column: usize,
    depth: usize,
    here: StatementOffset,
) -> usize
    requires { Deep work.now n column depth }
    ensures { result ≡ pop_of work.now column depth here.0 }
{
    for k in (0..depth).rev() {
        let row = of_statement(work, n, k, column) as usize;
        let end = of_statement(work, n, row, area::END);
        if here.0 < end {
            return k + 1;
        }
    }
    0
}

/// The row of an accepted statement on top of a stack.
pub fn push(work: &mut [u32], n: usize, column: usize, depth: usize, row: usize)
    requires { Room work.old n × (3 * depth + 3 ≤ n) × (column < 12) × (row < n) }
    ensures { work.new ≡ set work.old (statement_cell depth column) row }
{
    put_statement(work, n, depth, column, row as u32);
}
