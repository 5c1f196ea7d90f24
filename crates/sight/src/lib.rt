// Variables numbered by first sight, in the work area (carries the numbering half of scan_expression and scan_dv).
// A name whose word NUMBER is not 0 has its number already, or is a constant: both are passed over.
#![tactic(auto)]

ghost use Rattle.std.specs.Prelude.{◌≡◌, ◌+◌, ◌*◌, ◌<◌, ◌≤◌, length};
ghost use Rattle.area.specs.Cells.{symbol_cell, word};
ghost use Rattle.sight.specs.Numbered.{constant_words, seen_words, seen_count, SomeHold, CanScan, Scans, CanScanAll, ScansAll, Forgets, SomeUnnumbered, Presets};

pub mod tokens;

use crate::tokens::Tokens;
use paper::{Atom, StatementRow, TokenIndex};

/// One name, of which `vars` were seen: the number of variables afterwards.
pub fn see(work: &mut [u32], n: usize, vars: usize, atom: Atom) -> usize
    requires { (16 * n ≤ length work.old) × (n ≤ 16777217) × (atom.0 < n) × (vars < n) }
    ensures { (work.new ≡ seen_words (word work.old (symbol_cell n atom.0 5)) work.old n atom.0 vars) × (result ≡ seen_count (word work.old (symbol_cell n atom.0 5)) vars) }
{
    let cell = area::symbol(n, atom.0 as usize, area::NUMBER);
    if work[cell] != 0 {
        return vars;
    }
    work[area::bucket(n, vars)] = atom.0;
    work[cell] = (vars + 1) as u32;
    vars + 1
}

/// The names of a statement's math tokens, from the token `from` on.
pub fn scan(work: &mut [u32], n: usize, vars: usize, row: StatementRow, from: TokenIndex) -> usize
    requires { CanScan work.old n vars row.0 from.0 }
    ensures { Scans work.old work.new n vars result row.0 from.0 }
{
    let tokens = Tokens::of(work, n, row);
    let mut v = vars;
    for i in from.0 as usize..tokens.count {
        let atom = Atom(work[area::math(n, tokens.first + i)]);
        v = see(work, n, v, atom);
    }
    v
}

/// The names of the statements on a stack.
pub fn scan_all(
    work: &mut [u32],
    n: usize,
    vars: usize,
    column: usize,
    depth: usize,
    from: TokenIndex,
) -> usize
    requires { CanScanAll work.old n vars column depth from.0 }
    ensures { ScansAll work.old work.new n vars result column depth from.0 }
{
    let mut v = vars;
    for k in 0..depth {
        let row = StatementRow(work[area::statement(k, column)]);
        v = scan(work, n, v, row, from);
    }
    v
}

/// Takes the numbers of the variables away.
pub fn forget(work: &mut [u32], n: usize, vars: usize)
    requires { SomeHold work.old n vars }
    ensures { Forgets work.old work.new n vars }
{
    for k in 0..vars {
        let atom = work[area::bucket(n, k)] as usize;
        work[area::symbol(n, atom, area::NUMBER)] = 0;
    }
}

/// Marks the names whose global declaration is a `$c`: they are never numbered.
pub fn mark_constants(work: &mut [u32], n: usize, names: usize)
    requires { SomeUnnumbered work.old n names }
    ensures { Presets work.old work.new n names }
{
    for a in 0..names {
        mark_constant(work, n, Atom(a as u32));
    }
}

/// One such name.
pub fn mark_constant(work: &mut [u32], n: usize, atom: Atom)
    requires { (16 * n ≤ length work.old) × (n ≤ 16777217) × (atom.0 < n) }
    ensures { work.new ≡ constant_words (word work.old (symbol_cell n atom.0 1)) work.old n atom.0 }
{
    let global = work[area::symbol(n, atom.0 as usize, area::GLOBAL)];
    if global % 2 == 1 {
        work[area::symbol(n, atom.0 as usize, area::NUMBER)] = area::NO_END;
    }
}
