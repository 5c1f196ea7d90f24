// The words of the work area, read by what they are words of.
// Each is a number below 2^32; one that is an atom or a row is answered as such.
#![tactic(auto, unfolding(area::specs::Cells::word))]

ghost use Rattle.std.specs.Prelude.{◌≡◌, ◌≢◌, ◌+◌, ◌-◌, ◌*◌, ◌<◌, ◌≤◌, eqb, length};
ghost use Rattle.paper.specs.Statements.{none_end};
ghost use Rattle.area.specs.Cells.{statement_cell, name_cell, bucket_cell, symbol_cell, word};
ghost use Rattle.forms.specs.Words.{atom_at, count_of, row_code, Body, Buckets};

use paper::{Atom, StatementRow, TokenIndex, VariableNumber};
use std::ops::Range;

/// A word of a statement's row.
pub fn statement_word(work: &[u32], row: StatementRow, column: usize) -> usize
    requires { (12 * row.0 + 12 ≤ length work.now) × (row.0 < 4294967296) × (column < 12) }
    ensures { (result ≡ word work.now (statement_cell row.0 column)) × (result < 4294967296) }
{
    work[area::statement(row.0 as usize, column)] as usize
}

/// The label of a statement.
pub fn label_word(work: &[u32], row: StatementRow) -> Atom
    requires { (12 * row.0 + 12 ≤ length work.now) × (row.0 < 4294967296) }
    ensures { result.0 ≡ word work.now (statement_cell row.0 2) }
{
    Atom(work[area::statement(row.0 as usize, area::LABEL)])
}

/// The row of the k-th active `$e`.
pub fn essential_word(work: &[u32], k: usize) -> StatementRow
    requires { (12 * k + 12 ≤ length work.now) × (k < 4294967296) }
    ensures { result.0 ≡ word work.now (statement_cell k 10) }
{
    StatementRow(work[area::statement(k, area::ESS)])
}

/// A word of a name.
pub fn name_word(work: &[u32], n: usize, atom: Atom, column: usize) -> usize
    requires { (16 * n ≤ length work.now) × (n ≤ 16777217) × (atom.0 < n) × (column < 3) }
    ensures { (result ≡ word work.now (name_cell n atom.0 column)) × (result < 4294967296) }
{
    work[area::name(n, atom.0 as usize, column)] as usize
}

/// Where the bytes of a name stand in the text.
pub fn name_range(work: &[u32], n: usize, atom: Atom) -> Range<usize>
    requires { (16 * n ≤ length work.now) × (n ≤ 16777217) × (atom.0 < n) }
    ensures { (result.start ≡ word work.now (name_cell n atom.0 0)) × (result.end ≡ word work.now (name_cell n atom.0 1)) }
{
    name_word(work, n, atom, area::START)..name_word(work, n, atom, area::STOP)
}

/// The atom of a variable of the frame.
pub fn bucket_word(work: &[u32], n: usize, k: VariableNumber) -> Atom
    requires { (16 * n ≤ length work.now) × (n ≤ 16777217) × (k.0 < n) }
    ensures { result.0 ≡ word work.now (bucket_cell n k.0) }
{
    Atom(work[area::bucket(n, k.0 as usize)])
}

/// The atoms of the first `k` variables of the frame.
pub fn variables<'a>(work: &'a [u32], n: usize, k: usize) -> &'a [u32]
    requires { (16 * n ≤ length work.now) × (n ≤ 16777217) × (k ≤ n) }
    ensures { Buckets work.now n k result.now }
{
    let first = area::bucket(n, 0);
    &work[first..first + k]
}

/// A word of a symbol.
pub fn symbol_word(work: &[u32], n: usize, atom: Atom, column: usize) -> usize
    requires { (16 * n ≤ length work.now) × (n ≤ 16777217) × (atom.0 < n) × (column < 7) }
    ensures { (result ≡ word work.now (symbol_cell n atom.0 column)) × (result < 4294967296) }
{
    work[area::symbol(n, atom.0 as usize, column)] as usize
}

/// Whether a name is a constant.
pub fn is_constant(work: &[u32], n: usize, atom: Atom) -> bool
    requires { (16 * n ≤ length work.now) × (n ≤ 16777217) × (atom.0 < n) }
    ensures { result ≡ eqb (word work.now (symbol_cell n atom.0 5)) none_end }
{
    symbol_word(work, n, atom, area::NUMBER) == area::NO_END as usize
}

/// The number of a variable of the frame.
pub fn variable_number(work: &[u32], n: usize, atom: Atom) -> VariableNumber
    requires { (16 * n ≤ length work.now) × (n ≤ 16777217) × (atom.0 < n) × (word work.now (symbol_cell n atom.0 5) ≢ 0) }
    ensures { result.0 ≡ word work.now (symbol_cell n atom.0 5) - 1 }
{
    VariableNumber(work[area::symbol(n, atom.0 as usize, area::NUMBER)] - 1)
}

/// The row that a word says, if it says one.
pub fn row_of(code: usize) -> Option<StatementRow>
    requires { code ≤ 4294967296 }
    ensures { row_code result ≡ code }
{
    code.checked_sub(1).map(|row| StatementRow(row as u32))
}

/// The row of the latest accepted `$f` of a variable, if there is one.
pub fn float_row(work: &[u32], n: usize, atom: Atom) -> Option<StatementRow>
    requires { (16 * n ≤ length work.now) × (n ≤ 16777217) × (atom.0 < n) }
    ensures { row_code result ≡ word work.now (symbol_cell n atom.0 4) }
{
    row_of(symbol_word(work, n, atom, area::FLOAT))
}

/// The atoms of a statement's math tokens after the first.
#[tactic(auto, unfolding(area::specs::Cells::word, crate::specs::Words::atom_at))]
pub fn body<'a>(work: &'a [u32], n: usize, row: StatementRow) -> &'a [u32]
    requires { (16 * n ≤ length work.now) × (n ≤ 16777217) × (3 * row.0 + 3 ≤ n) × (1 ≤ count_of work.now row.0) × (word work.now (statement_cell row.0 5) + count_of work.now row.0 < n) }
    ensures { Body work.now n row.0 result.now }
{
    let first = area::math(n, statement_word(work, row, area::FIRST));
    &work[first + 1..first + statement_word(work, row, area::COUNT)]
}

/// The atom of a math token of a statement.
#[tactic(auto, unfolding(area::specs::Cells::word, crate::specs::Words::atom_at))]
pub fn math_word(work: &[u32], n: usize, row: StatementRow, i: TokenIndex) -> Atom
    requires { (16 * n ≤ length work.now) × (n ≤ 16777217) × (3 * row.0 + 3 ≤ n) × (word work.now (statement_cell row.0 5) + i.0 < n) }
    ensures { result.0 ≡ atom_at work.now n row.0 i.0 }
{
    let first = statement_word(work, row, area::FIRST);
    Atom(work[area::math(n, first + i.0 as usize)])
}
