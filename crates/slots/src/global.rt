// The outermost `$d` that are active: they are the lowest entries of the stack of active `$d` (carries lookup_global_dv).
// Once a nested one is active, all that are put above it are nested too.
ghost use Rattle.slots.specs.Stack.{Deep};
ghost use Rattle.slots.specs.Global.{GlobalDv};

use crate::cells::of_statement;

/// How many of `ds` active `$d` are outermost: their rows are the first so many entries of the stack, in text order.
pub fn lookup_global_dv(work: &[u32], n: usize, ds: usize) -> usize
    requires { Deep work.now n 11 ds }
    ensures { GlobalDv work.now n ds result }
{
    for k in 0..ds {
        let row = of_statement(work, n, k, area::DIS) as usize;
        let end = of_statement(work, n, row, area::END);
        if end != area::NO_END {
            return k;
        }
    }
    ds
}
