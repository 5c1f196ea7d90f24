// The pool: the constants after the typecode of the active `$e` and of the assertion, each with its last byte raised.
// The constants of one row, of the rows of the active `$e`, and of both; written, or their bytes counted.
ghost use Rattle.std.specs.Prelude.{◌≡◌, ◌+◌, ◌*◌, ◌<◌, ◌≤◌, ◌^◌};
ghost use Rattle.paper.specs.Expressions.{constant_in};
ghost use Rattle.stream.specs.Wrote.{Wrote};
ghost use Rattle.area.specs.Cells.{statement_cell, word};
ghost use Rattle.forms.specs.Words.{name_bytes, word_symbol, count_of, constants_of, constant_size, sizes_to, NameWords, Low, RowWords, StackWords, Before, SomeName, SomeRow, SomeStack};
ghost use Rattle.forms.specs.Puts.{PutStack, StackLength, PutPool};

use crate::{names, words};
use paper::{Atom, StatementRow};

/// A name, raised, if it is a constant.
pub fn put_constant(
    text: &[u8],
    work: &[u32],
    n: usize,
    buf: &mut [u8],
    at: usize,
    atom: Atom,
) -> usize
    requires { NameWords text.now work.now n atom.0 × Low (name_bytes text.now work.now n atom.0) × (at < 2 ^ 62) }
    ensures { (result ≤ at + 16777216) × Wrote buf.old buf.new at result (constant_in (word_symbol text.now work.now n atom.0)) }
{
    if !words::is_constant(work, n, atom) {
        return at;
    }
    stream::write::put_raised(buf, at, names::name_part(text, work, n, atom))
}

/// The constants of a row after the typecode.
pub fn put_constants(
    text: &[u8],
    work: &[u32],
    n: usize,
    buf: &mut [u8],
    at: usize,
    row: StatementRow,
) -> usize
    requires { RowWords text.now work.now n row.0 × (at < 2 ^ 61) }
    ensures { (result ≤ at + 16777216 * count_of work.now row.0) × Wrote buf.old buf.new at result (constants_of text.now work.now n row.0) }
{
    let mut a = at;
    for atom in words::body(work, n, row) {
        a = put_constant(text, work, n, buf, a, Atom(*atom));
    }
    a
}

/// The constants of the first `es` active `$e`.
pub fn put_stack(text: &[u8], work: &[u32], n: usize, buf: &mut [u8], at: usize, es: usize) -> usize
    requires { StackWords text.now work.now n es × (at < 2 ^ 60) }
    ensures { PutStack text.now work.now n es buf.old buf.new at result }
{
    let mut a = at;
    for k in 0..es {
        let row = words::essential_word(work, k);
        a = put_constants(text, work, n, buf, a, row);
    }
    a
}

/// The bytes of a name, if it is a constant.
#[tactic(auto, unfolding(crate::specs::Words::constant_size))]
pub fn constant_length(work: &[u32], n: usize, atom: Atom) -> usize
    requires { SomeName work.now n atom.0 }
    ensures { (result ≤ 16777216) × (result ≡ constant_size work.now n atom.0) }
{
    if !words::is_constant(work, n, atom) {
        return 0;
    }
    words::name_range(work, n, atom).len()
}

/// The bytes of the constants of a row after the typecode.
pub fn constants_length(work: &[u32], n: usize, row: StatementRow) -> usize
    requires { SomeRow work.now n row.0 }
    ensures { (result ≤ 16777216 * count_of work.now row.0) × (result ≡ sizes_to work.now n row.0 (count_of work.now row.0)) }
{
    let mut sum = 0;
    for atom in words::body(work, n, row) {
        sum += constant_length(work, n, Atom(*atom));
    }
    sum
}

/// The bytes of the constants of the first `es` active `$e`.
pub fn stack_length(work: &[u32], n: usize, es: usize) -> usize
    requires { SomeStack work.now n es }
    ensures { StackLength work.now n es result }
{
    let mut sum = 0;
    for k in 0..es {
        let row = words::essential_word(work, k);
        sum += constants_length(work, n, row);
    }
    sum
}

/// The pool string of `es` active `$e` and the assertion of a row: the bytes after the place of their number, and that last.
pub fn put_pool(
    text: &[u8],
    work: &[u32],
    n: usize,
    buf: &mut [u8],
    at: usize,
    es: usize,
    row: StatementRow,
) -> usize
    requires { StackWords text.now work.now n es × RowWords text.now work.now n row.0 × Before work.now es (word work.now (statement_cell row.0 5)) × (at < 2 ^ 59) }
    ensures { PutPool text.now work.now n es row.0 buf.old buf.new at result }
{
    let a = at + 4;
    let b = put_stack(text, work, n, buf, a, es);
    let c = put_constants(text, work, n, buf, b, row);
    stream::write::put_u32(buf, at, (c - a) as u64);
    c
}
