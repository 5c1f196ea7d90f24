// The work area: where each word lies. n = N + 1 rows of 16 columns, so 16 * n words, in five blocks of columns; a block
// of w columns holds rows of w words, one after the other, so that the words of one thing stand together.
//
// | columns | block     | row                       | words of a row                                              |
// | 0-3     | statement | s-th statement, 12 words  | KIND to DIS below; the word 9 is spare                      |
// | 4-6     | name      | a-th distinct name        | START, STOP; while naming, the word 2 is its left link      |
// | 7       | bucket    | b-th bucket               | while reading: what the b-th item is; while naming: heads   |
// | 8-14    | symbol    | a-th distinct name        | OWNER to MARK below; while reading, the ends of open groups |
// |         |           |                           | while naming, NESTED is its right link                      |
// | 15      | math      | t-th math token           | its offset after reading, its atom after naming             |
//
// A statement has three tokens or more, so the four columns of the first block hold a row of 12 words for each.
#![tactic(auto)]

ghost use Rattle.std.specs.Prelude.{◌+◌, ◌*◌, ◌<◌, ◌≤◌, ◌≡◌, length, replicate};
ghost use Rattle.area.specs.Cells.{statement_cell, name_cell, bucket_cell, symbol_cell, math_cell, Cleared};

// 1 `$c`, 2 `$v`, 3 `$d`, 4 `$f`, 5 `$e`, 6 `$a`, 7 `$p`
pub const KIND: usize = 0;
// offset of the first token
pub const AT: usize = 1;
// label length after reading, 0 for none; the label's atom after naming
pub const LABEL: usize = 2;
// where the math string starts, after the keyword
pub const FROM: usize = 3;
// where it stops, after its last token; `$.` or `$=` is next
pub const TO: usize = 4;
// the number of math tokens of the text before this statement
pub const FIRST: usize = 5;
// the number of math tokens of this statement
pub const COUNT: usize = 6;
// the statement's end
pub const END: usize = 7;
// 1 once the statement was accepted, or 0
pub const ACCEPTED: usize = 8;
// row k: statement row of the k-th active accepted `$e`
pub const ESS: usize = 10;
// row k: statement row of the k-th active accepted `$d`
pub const DIS: usize = 11;

// the bytes of a name's first token
pub const START: usize = 0;

pub const STOP: usize = 1;

// offset + 1 of the first bearer of the label; 0 for none
pub const OWNER: usize = 0;
// global declaration: 2 * offset + 1 of a `$c` token, 2 * offset + 2 of a `$v` token; 0 for none
pub const GLOBAL: usize = 1;
// offset of the latest recorded nested `$v` token
pub const NESTED: usize = 2;
// its end; 0 if none was recorded
pub const NESTED_END: usize = 3;
// statement row + 1 of the latest accepted `$f`; 0 for none
pub const FLOAT: usize = 4;
// number + 1 in the frame in hand; 4294967295 for a constant
pub const NUMBER: usize = 5;
// token index + 1 in the `$d` in hand, or the turn of the pair count; 0 between statements
pub const MARK: usize = 6;

// the end of what stands outermost
pub const NO_END: u32 = 4294967295;

/// The cell of a word of a statement's row.
pub fn statement(row: usize, word: usize) -> usize
    requires { (row < 4294967296) × (word < 12) }
    ensures { result ≡ statement_cell row word }
{
    12 * row + word
}

/// The cell of a word of a name.
pub fn name(n: usize, row: usize, word: usize) -> usize
    requires { (n < 4294967296) × (row < 4294967296) × (word < 3) }
    ensures { result ≡ name_cell n row word }
{
    4 * n + 3 * row + word
}

/// The cell of a bucket.
pub fn bucket(n: usize, row: usize) -> usize
    requires { (n < 4294967296) × (row < 4294967296) }
    ensures { result ≡ bucket_cell n row }
{
    7 * n + row
}

/// The cell of a word of a symbol.
pub fn symbol(n: usize, row: usize, word: usize) -> usize
    requires { (n < 4294967296) × (row < 4294967296) × (word < 7) }
    ensures { result ≡ symbol_cell n row word }
{
    8 * n + 7 * row + word
}

/// The cell of a math token.
pub fn math(n: usize, row: usize) -> usize
    requires { (n < 4294967296) × (row < 4294967296) }
    ensures { result ≡ math_cell n row }
{
    15 * n + row
}

/// The words from a up to e are 0 afterwards, the others as before.
pub fn clear_part(work: &mut [u32], a: usize, e: usize)
    requires { (a ≤ e) × (e ≤ length work.old) }
    ensures { Cleared a e work.old work.new }
{
    work[a..e].fill(0);
}

/// Every word is 0 afterwards.
pub fn clear(work: &mut [u32])
    ensures { work.new ≡ replicate (length work.old) 0 }
{
    work.fill(0);
}
