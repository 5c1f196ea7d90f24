// The math tokens of a statement, as its row tells them: where the first of them stands, and how many they are.
// Every walk over them asks here for that pair, and here for the row of the i-th.
ghost use Rattle.std.specs.Prelude.{◌≡◌, ◌+◌, ◌*◌, ◌<◌, ◌≤◌, ◌^◌, length};
ghost use Rattle.area.specs.Cells.{statement_cell, word};

use paper::{StatementRow, TokenRow};

/// The math tokens of a statement: those from row `first` on, `count` of them.
#[derive(Clone, Copy)]
pub struct Tokens {
    pub first: usize,
    pub count: usize,
}

impl Tokens {
    /// Those of a statement row.
    pub fn of(work: &[u32], n: usize, row: StatementRow) -> Tokens
        requires { (16 * n ≤ length work.now) × (n ≤ 16777217) × (3 * row.0 + 3 ≤ n) }
        ensures first { result.first ≡ word work.now (statement_cell row.0 5) }
        ensures count { result.count ≡ word work.now (statement_cell row.0 6) }
    {
        let line = row.0 as usize;
        Tokens {
            first: work[area::statement(line, area::FIRST)] as usize,
            count: work[area::statement(line, area::COUNT)] as usize,
        }
    }

    /// The i-th of them.
    pub fn at(self, i: usize) -> TokenRow
        requires { self.first + i < 2 ^ 32 }
        ensures { result.0 ≡ self.first + i }
    {
        TokenRow((self.first + i) as u32)
    }
}
