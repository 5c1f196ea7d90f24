// One word of the work area, by the row and the word of a statement or of a symbol, or by the row of a math token.
// n is the number of rows, N + 1.
ghost use Rattle.std.specs.Prelude.{◌≡◌, ◌+◌, ◌*◌, ◌<◌, ◌≤◌, set};
ghost use Rattle.area.specs.Cells.{statement_cell, symbol_cell, math_cell, word};
ghost use Rattle.slots.specs.Kept.{Room};

/// A word of a statement.
pub fn of_statement(work: &[u32], n: usize, row: usize, column: usize) -> u32
    requires { Room work.now n × (3 * row + 3 ≤ n) × (column < 12) }
    ensures { result ≡ word work.now (statement_cell row column) }
{
    work[area::statement(row, column)]
}

/// Writes a word of a statement.
pub fn put_statement(work: &mut [u32], n: usize, row: usize, column: usize, v: u32)
    requires { Room work.old n × (3 * row + 3 ≤ n) × (column < 12) }
    ensures { work.new ≡ set work.old (statement_cell row column) v }
{
    work[area::statement(row, column)] = v;
}

/// A word of a symbol.
pub fn of_symbol(work: &[u32], n: usize, a: usize, column: usize) -> u32
    requires { Room work.now n × (a < n) × (column < 7) }
    ensures { result ≡ word work.now (symbol_cell n a column) }
{
    work[area::symbol(n, a, column)]
}

/// Writes a word of a symbol.
pub fn put_symbol(work: &mut [u32], n: usize, a: usize, column: usize, v: u32)
    requires { Room work.old n × (a < n) × (column < 7) }
    ensures { work.new ≡ set work.old (symbol_cell n a column) v }
{
    work[area::symbol(n, a, column)] = v;
}

/// The atom of a math token.
pub fn of_math(work: &[u32], n: usize, row: usize) -> u32
    requires { Room work.now n × (row < n) }
    ensures { result ≡ word work.now (math_cell n row) }
{
    work[area::math(n, row)]
}
