// Mandatory pairs counted: in the turn of each mandatory variable, the mandatory ones of a higher number that an active
// `$d` names with it are marked in the work area. The marks are taken away in the end.
ghost use Rattle.std.specs.Prelude.{◌≡◌, ◌+◌, ◌-◌, ◌<◌};
ghost use Rattle.disjoint.specs.Found.{has, rising};
ghost use Rattle.disjoint.specs.Words.{number_at, numbers, TokenNumbered, CanWalk};
ghost use Rattle.disjoint.specs.Marks.{Marks, CanMark, MarksOne, CanMarkRow, above, CanCountOf, CountsOf, CanCountAll, CountsAll, CanClear, ClearsMarks, PairCount};
ghost use Rattle.sight.specs.Sums.{one};
ghost use Rattle.area.specs.Cells.{bucket_cell, word};
ghost use Rattle.slots.specs.Kept.{Room};
ghost use Rattle.paper.specs.Pairs.{pairs_in};

use paper::{Atom, StatementRow, TokenRow, VariableNumber};
use sight::tokens::Tokens;
use slots::cells;

/// The number of the variable that is a math token of the text.
pub fn number(work: &[u32], n: usize, t: TokenRow) -> VariableNumber
    requires { Room work.now n × TokenNumbered work.now n t.0 }
    ensures { result.0 ≡ number_at work.now n t.0 - 1 }
{
    let atom = cells::of_math(work, n, t.0 as usize) as usize;
    VariableNumber(cells::of_symbol(work, n, atom, area::NUMBER) - 1)
}

/// Whether a `$d` names variable u.
pub fn names_number(work: &[u32], n: usize, m: usize, row: StatementRow, u: VariableNumber) -> bool
    requires { CanWalk work.now n m row.0 }
    ensures { result ≡ has u.0 (numbers work.now n row.0) }
{
    let tokens = Tokens::of(work, n, row);
    (0..tokens.count).any(|i| number(work, n, tokens.at(i)).0 == u.0)
}

/// Marks a math token with u + 1 if it is a mandatory variable whose number is above u: whether it was not marked so.
pub fn mark_one(work: &mut [u32], n: usize, m: usize, t: TokenRow, u: VariableNumber) -> bool
    requires { CanMark work.old n m t.0 u.0 }
    ensures { MarksOne work.old work.new n m t.0 u.0 (one result) }
{
    let v = u.0 as usize;
    let atom = cells::of_math(work, n, t.0 as usize) as usize;
    let k = cells::of_symbol(work, n, atom, area::NUMBER) as usize;
    if k <= v + 1 || m < k || cells::of_symbol(work, n, atom, area::MARK) as usize == v + 1 {
        return false;
    }
    cells::put_symbol(work, n, atom, area::MARK, (v + 1) as u32);
    true
}

/// Marks so the tokens of a `$d`: how many were not marked so.
pub fn mark_above(
    work: &mut [u32],
    n: usize,
    m: usize,
    row: StatementRow,
    u: VariableNumber,
) -> usize
    requires { CanMarkRow work.old n m row.0 u.0 }
    ensures { Marks work.old work.new n m u.0 (above (numbers work.old n row.0) u.0) result }
{
    let tokens = Tokens::of(work, n, row);
    let mut sum = 0;
    for i in 0..tokens.count {
        sum += usize::from(mark_one(work, n, m, tokens.at(i), u));
    }
    sum
}

/// How many mandatory variables that a `$d` with variable u names were not marked so.
pub fn mark_with(
    work: &mut [u32],
    n: usize,
    m: usize,
    row: StatementRow,
    u: VariableNumber,
) -> usize
    requires { CanMarkRow work.old n m row.0 u.0 }
    ensures { Marks work.old work.new n m u.0 (rising (pairs_in (numbers work.old n row.0)) u.0) result }
{
    if names_number(work, n, m, row, u) {
        return mark_above(work, n, m, row, u);
    }
    0
}

/// How many mandatory variables numbered above u the active `$d` name with variable u.
pub fn count_pairs_of(work: &mut [u32], n: usize, m: usize, ds: usize, u: VariableNumber) -> usize
    requires { CanCountOf work.old n m ds u.0 }
    ensures { CountsOf work.old work.new n m ds u.0 result }
{
    let mut sum = 0;
    for k in 0..ds {
        let row = StatementRow(cells::of_statement(work, n, k, area::DIS));
        sum += mark_with(work, n, m, row, u);
    }
    sum
}

/// The number of mandatory pairs; the marks are left.
pub fn count_pairs(work: &mut [u32], n: usize, m: usize, ds: usize) -> usize
    requires { CanCountAll work.old n m ds }
    ensures { CountsAll work.old work.new n m ds result }
{
    let mut sum = 0;
    for u in 0..m {
        sum += count_pairs_of(work, n, m, ds, VariableNumber(u as u32));
    }
    sum
}

/// The atom of variable k.
pub fn atom_of(work: &[u32], n: usize, k: VariableNumber) -> Atom
    requires { Room work.now n × (k.0 < n) }
    ensures { result.0 ≡ word work.now (bucket_cell n k.0) }
{
    Atom(work[area::bucket(n, k.0 as usize)])
}

/// Takes the marks of the mandatory variables away.
pub fn clear_marks(work: &mut [u32], n: usize, m: usize)
    requires { CanClear work.old n m }
    ensures { ClearsMarks work.old work.new n m }
{
    for k in 0..m {
        let atom = atom_of(work, n, VariableNumber(k as u32));
        cells::put_symbol(work, n, atom.0 as usize, area::MARK, 0);
    }
}

/// The number of mandatory pairs; the words are as before.
pub fn pair_count(work: &mut [u32], n: usize, m: usize, ds: usize) -> usize
    requires { CanCountAll work.old n m ds }
    ensures { PairCount work.old work.new n m ds result }
{
    let sum = count_pairs(work, n, m, ds);
    clear_marks(work, n, m);
    sum
}
