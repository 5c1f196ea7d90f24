// Expressions: the typecode, the fragments that the variables end, and the rump; places are in the pool.
// A constant goes on with the fragment in hand, a variable ends it.
ghost use Rattle.std.specs.Prelude.{◌≡◌, ◌+◌, ◌<◌, ◌^◌};
ghost use Rattle.paper.specs.Records.{fragment_bytes};
ghost use Rattle.stream.specs.Wrote.{Wrote};
ghost use Rattle.forms.specs.Words.{RowWords, RowNumbers, SomeRow};
ghost use Rattle.forms.specs.Spelling.{CanPutSymbol, PutSymbol, Pooled, PutFragments, PutExpression};

use crate::{names, pool, words};
use paper::{Atom, StatementRow, TokenIndex, VariableNumber};

/// The place reached in the buffer; the fragment in hand: where it starts in the pool, and the place reached there; and the
/// number of variables so far.
#[derive(Clone, Copy)]
pub struct Reached {
    pub at: usize,
    pub from: usize,
    pub to: usize,
    pub variables: usize,
}

/// A fragment that a variable of this number ends.
pub fn put_fragment(
    buf: &mut [u8],
    at: usize,
    from: usize,
    to: usize,
    variable: VariableNumber,
) -> usize
    requires { at < 2 ^ 62 }
    ensures { (result ≡ at + 10) × Wrote buf.old buf.new at result (fragment_bytes (record { from = from; to = to; variable = variable.0 })) }
{
    let a = stream::write::put_u32(buf, at, from as u64);
    let b = stream::write::put_u32(buf, a, to as u64);
    stream::write::put_u16(buf, b, variable.0 as u64)
}

/// One symbol, after those before it.
pub fn put_symbol(work: &[u32], n: usize, buf: &mut [u8], p: Reached, atom: Atom) -> Reached
    requires { CanPutSymbol work.now n p atom.0 }
    ensures { PutSymbol work.now n buf.old buf.new p result atom.0 }
{
    let to = p.to + pool::constant_length(work, n, atom);
    if words::is_constant(work, n, atom) {
        return Reached { to, ..p };
    }
    let variable = words::variable_number(work, n, atom);
    let at = put_fragment(buf, p.at, p.from, p.to, variable);
    Reached {
        at,
        from: p.to,
        to,
        variables: p.variables + 1,
    }
}

/// The fragments and the rump of a row, whose constants stand in the pool from `pool` on.
pub fn put_fragments(
    work: &[u32],
    n: usize,
    buf: &mut [u8],
    at: usize,
    row: StatementRow,
    pool: usize,
) -> Reached
    requires { SomeRow work.now n row.0 × RowNumbers work.now n row.0 × (at < 2 ^ 61) × (pool < 2 ^ 61) }
    ensures { PutFragments work.now n row.0 pool buf.old buf.new at result }
{
    let mut p = Reached {
        at,
        from: pool,
        to: pool,
        variables: 0,
    };
    for atom in words::body(work, n, row) {
        p = put_symbol(work, n, buf, p, Atom(*atom));
    }
    let a = stream::write::put_u32(buf, p.at, p.from as u64);
    let b = stream::write::put_u32(buf, a, p.to as u64);
    Reached { at: b, ..p }
}

/// The expression of a row, whose constants stand in the pool from `pool` on; the number of its fragments comes last.
pub fn put_spelled(
    text: &[u8],
    work: &[u32],
    n: usize,
    buf: &mut [u8],
    at: usize,
    row: StatementRow,
    pool: usize,
) -> Reached
    requires { RowWords text.now work.now n row.0 × RowNumbers work.now n row.0 × (at < 2 ^ 60) × (pool < 2 ^ 60) }
    ensures { PutExpression text.now work.now n row.0 pool buf.old buf.new at result.at × Pooled work.now n row.0 pool result.to }
{
    let typecode = words::math_word(work, n, row, TokenIndex(0));
    let a = names::put_name(text, work, n, buf, at, typecode);
    let r = put_fragments(work, n, buf, a + 4, row, pool);
    stream::write::put_u32(buf, a, r.variables as u64);
    r
}
