// The walks that number the variables of a frame by first sight (carries scan_expression and scan_dv).
// Both are walks of `sight`: over the tokens after a typecode, and over all tokens of each active `$d`.
ghost use Rattle.sight.specs.Numbered.{CanScan, Scans, CanScanAll, ScansAll};

use paper::{StatementRow, TokenIndex};
use slots::global::lookup_global_dv;

/// The number of variables after those of the expression in a row.
pub fn scan_expression(work: &mut [u32], n: usize, vars: usize, row: StatementRow) -> usize
    requires { CanScan work.old n vars row.0 1 }
    ensures { Scans work.old work.new n vars result row.0 1 }
{
    sight::scan(work, n, vars, row, TokenIndex(1))
}

/// The number of variables after those of `ds` active `$d`: the outermost ones first, then the nested ones.
pub fn scan_dv(work: &mut [u32], n: usize, vars: usize, ds: usize) -> usize
    requires { CanScanAll work.old n vars 11 ds 0 }
    ensures { ScansAll work.old work.new n vars result 11 ds 0 }
{
    let outer = lookup_global_dv(work, n, ds);
    let mut v = sight::scan_all(work, n, vars, area::DIS, outer, TokenIndex(0));
    for k in outer..ds {
        let row = StatementRow(work[area::statement(k, area::DIS)]);
        v = sight::scan(work, n, v, row, TokenIndex(0));
    }
    v
}
