// Pairs and rows drawn into the buffer: the rows tell which pairs were found, so that each mandatory pair is written once,
// in the order and the orientation in which it is found.
ghost use Rattle.std.specs.Prelude.{◌≡◌, [], ◌∷◌, ◌+◌, ◌*◌, ◌<◌, ◌^◌};
ghost use Rattle.paper.specs.Pairs.{pair, pairs_in};
ghost use Rattle.disjoint.specs.Words.{numbers, listed};
ghost use Rattle.disjoint.specs.Written.{CanPutDisjoint, PutsDisjoint};
ghost use Rattle.disjoint.specs.Drawn.{CanDraw, Drew, pairs_at, CanDrawAt, CanDrawRow, CanDrawAll};

use crate::tally;
use paper::{StatementRow, TokenIndex, VariableNumber};
use sight::tokens::Tokens;
use slots::cells;

/// Where the rows of a frame stand, the bytes of a row, how many rows there are, and the number of mandatory variables.
#[derive(Clone, Copy)]
pub struct Grid {
    pub at: usize,
    pub width: usize,
    pub size: usize,
    pub mandatory: usize,
}

impl Grid {
    /// Where the row of variable i begins.
    pub fn row(self, i: usize) -> usize
        requires { self.at + i * self.width < 2 ^ 64 }
        ensures { result ≡ self.at + i * self.width }
    {
        self.at + i * self.width
    }

    /// Sets the bits of two variables that have rows, and stores their pair if they were not set and both are mandatory.
    pub fn put_pair(self, buf: &mut [u8], at: usize, x: VariableNumber, y: VariableNumber) -> usize
        requires { CanDraw buf.old self at (pair x.0 y.0 ∷ []) }
        ensures { Drew buf.old buf.new self at result (pair x.0 y.0 ∷ []) [] }
    {
        let i = x.0 as usize;
        let j = y.0 as usize;
        if self.size <= i || self.size <= j {
            return at;
        }
        let line = self.row(i);
        if stream::bits::bit_at(buf, line, j) {
            return at;
        }
        stream::bits::set_bit(buf, line, j);
        stream::bits::set_bit(buf, self.row(j), i);
        if self.mandatory <= i || self.mandatory <= j {
            return at;
        }
        let a = stream::write::put_u16(buf, at, i as u64);
        stream::write::put_u16(buf, a, j as u64)
    }

    /// The pairs of the i-th token of a `$d` with those right of it; none if it has no row.
    pub fn put_pairs_at(
        self,
        work: &[u32],
        n: usize,
        buf: &mut [u8],
        at: usize,
        row: StatementRow,
        i: TokenIndex,
    ) -> usize
        requires { CanDrawAt work.now buf.old n row.0 i.0 self at }
        ensures { Drew buf.old buf.new self at result (pairs_at (numbers work.now n row.0) i.0) [] }
    {
        let k = i.0 as usize;
        let tokens = Tokens::of(work, n, row);
        let x = tally::number(work, n, tokens.at(k));
        if self.size <= x.0 as usize {
            return at;
        }
        let mut a = at;
        for j in k + 1..tokens.count {
            let y = tally::number(work, n, tokens.at(j));
            a = self.put_pair(buf, a, x, y);
        }
        a
    }

    /// The pairs of one `$d`.
    pub fn put_pairs_of(
        self,
        work: &[u32],
        n: usize,
        buf: &mut [u8],
        at: usize,
        row: StatementRow,
    ) -> usize
        requires { CanDrawRow work.now buf.old n row.0 self at }
        ensures { Drew buf.old buf.new self at result (pairs_in (numbers work.now n row.0)) [] }
    {
        let tokens = Tokens::of(work, n, row);
        let mut a = at;
        for i in 0..tokens.count {
            a = self.put_pairs_at(work, n, buf, a, row, TokenIndex(i as u32));
        }
        a
    }

    /// The pairs of the active `$d`.
    pub fn put_pairs(self, work: &[u32], n: usize, buf: &mut [u8], at: usize, ds: usize) -> usize
        requires { CanDrawAll work.now buf.old n ds self at }
        ensures { Drew buf.old buf.new self at result (listed work.now n ds) [] }
    {
        let mut a = at;
        for k in 0..ds {
            let row = StatementRow(cells::of_statement(work, n, k, area::DIS));
            a = self.put_pairs_of(work, n, buf, a, row);
        }
        a
    }
}

/// The number of mandatory pairs, the pairs, and the rows of the first `size` variables. If they do not all fit, only the
/// place after them is answered.
pub fn put_disjoint(
    work: &mut [u32],
    n: usize,
    buf: &mut [u8],
    at: usize,
    size: usize,
    mandatory: usize,
    ds: usize,
) -> usize
    requires { CanPutDisjoint work.old n at size mandatory ds }
    ensures { PutsDisjoint work.old work.new buf.old buf.new n at result size mandatory ds }
{
    let pairs = tally::pair_count(work, n, mandatory, ds);
    let width = size.div_ceil(8);
    let bytes = size * width;
    let body = stream::write::put_u32(buf, at, pairs as u64);
    let rows = body + 4 * pairs;
    let end = rows + bytes;
    if buf.len() < end {
        return end;
    }
    stream::write::put_zeros(buf, rows, bytes);
    let grid = Grid {
        at: rows,
        width,
        size,
        mandatory,
    };
    grid.put_pairs(work, n, buf, body, ds);
    end
}
