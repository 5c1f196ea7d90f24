// Naming: each label and each math token becomes an atom, first bearers own their labels, first outermost `$c` and `$v`
// tokens are global declarations. The math string of a statement goes in as a part of the text.
ghost use Rattle.std.specs.Prelude.{◌≡◌, ◌+◌, ◌*◌, ◌<◌, ◌≤◌, length};
ghost use Rattle.nameck.specs.Table.{noted, globally};
ghost use Rattle.nameck.specs.Naming.{HashedToken, declaring, SomeToken, TokenNamed, SomeMath, MathNamed, SomeLabel, LabelNamed, SomeStatement, StatementNamed, SomeRead, AllNamed};

use crate::intern::{hash_more, hash_of, intern};
use paper::{Atom, TokenOffset};
use token::class::{WHITE, class_of};

/// Writes a word that was not written before.
pub fn note(work: &mut [u32], cell: usize, value: u32)
    requires { cell < length work.old }
    ensures { work.new ≡ noted work.old cell value }
{
    if work[cell] == 0 {
        work[cell] = value;
    }
}

/// What an outermost statement declares. The number is what the word of a declaration has beside twice its offset.
#[derive(Clone, Copy)]
pub enum Sort {
    Constant = 1,
    Variable = 2,
}

/// Notes a token of a statement that declares globally: the first of its name is the global declaration.
pub fn note_global(work: &mut [u32], n: usize, atom: Atom, declares: Option<Sort>, at: TokenOffset)
    requires { (n < 4294967296) × (atom.0 < n) × (16 * n ≤ length work.old) × (at.0 < 16777216) }
    ensures { work.new ≡ globally declares work.old n atom.0 at.0 }
{
    if let Some(sort) = declares {
        note(
            work,
            area::symbol(n, atom.0 as usize, area::GLOBAL),
            2 * at.0 + sort as u32,
        );
    }
}

/// Names the label of a statement, if it bears one: its atom takes the place of its length, and the first bearer owns it.
pub fn name_label(text: &[u8], work: &mut [u32], n: usize, s: usize, names: usize) -> usize
    requires { SomeLabel text.now work.old n s names }
    ensures { LabelNamed text.now work.old work.new n s names result }
{
    if work[area::statement(s, area::KIND)] < 4 {
        return names;
    }
    let at = work[area::statement(s, area::AT)] as usize;
    let stop = at + work[area::statement(s, area::LABEL)] as usize;
    let hashed = hash_of(&text[at..stop]);
    let got = intern(text, work, n, names, at, stop, hashed);
    work[area::statement(s, area::LABEL)] = got.atom.0;
    note(
        work,
        area::symbol(n, got.atom.0 as usize, area::OWNER),
        at as u32 + 1,
    );
    got.names
}

/// Where a token stops, and the hash of its bytes.
#[derive(Clone, Copy)]
pub struct Hashed {
    pub stop: usize,
    pub hash: u64,
}

/// Goes to the end of the token at a place of a part of the text, and makes its hash on the way.
pub fn hash_token(part: &[u8], at: usize) -> Hashed
    ensures { HashedToken part.now at result }
{
    let mut x = Hashed { stop: at, hash: 0 };
    for i in at..part.len() {
        if class_of(part[i]) == WHITE {
            return x;
        }
        x = Hashed {
            stop: i + 1,
            hash: hash_more(x.hash, part[i]),
        };
    }
    x
}

/// Names the math token whose offset stands in a row of the math column: its atom takes the place of the offset.
/// `part` is the math string, which starts at `from`.
pub fn name_token(
    text: &[u8],
    part: &[u8],
    work: &mut [u32],
    n: usize,
    from: usize,
    row: usize,
    declares: Option<Sort>,
    names: usize,
) -> usize
    requires { SomeToken text.now part.now work.old n from row declares names }
    ensures { TokenNamed text.now part.now work.old work.new n from row declares names result }
{
    let at = work[area::math(n, row)] as usize;
    let x = hash_token(part, at - from);
    let got = intern(text, work, n, names, at, from + x.stop, x.hash);
    work[area::math(n, row)] = got.atom.0;
    let k = got.names;
    note_global(work, n, got.atom, declares, TokenOffset(at as u32));
    k
}

/// Names the math tokens of a statement, whose math string is `part`.
pub fn name_math(
    text: &[u8],
    part: &[u8],
    work: &mut [u32],
    n: usize,
    s: usize,
    declares: Option<Sort>,
    names: usize,
) -> usize
    requires { SomeMath text.now part.now work.old n s declares names }
    ensures { MathNamed text.now part.now work.old work.new n s declares names result }
{
    let from = work[area::statement(s, area::FROM)] as usize;
    let first = work[area::statement(s, area::FIRST)] as usize;
    let count = work[area::statement(s, area::COUNT)] as usize;
    let mut k = names;
    for row in first..first + count {
        k = name_token(text, part, work, n, from, row, declares, k);
    }
    k
}

/// What a statement of this kind and end declares globally: an outermost `$c` or `$v` does.
pub fn declaring_kind(kind: u32, end: u32) -> Option<Sort>
    ensures { result ≡ declaring kind end }
{
    if end != area::NO_END {
        return None;
    }
    match kind {
        1 => Some(Sort::Constant),
        2 => Some(Sort::Variable),
        _ => None,
    }
}

/// Names one statement.
pub fn name_statement(text: &[u8], work: &mut [u32], n: usize, s: usize, names: usize) -> usize
    requires { SomeStatement text.now work.old n s names }
    ensures { StatementNamed text.now work.old work.new n s names result }
{
    let k = name_label(text, work, n, s, names);
    let declares = declaring_kind(
        work[area::statement(s, area::KIND)],
        work[area::statement(s, area::END)],
    );
    let from = work[area::statement(s, area::FROM)] as usize;
    let to = work[area::statement(s, area::TO)] as usize;
    name_math(text, &text[from..to], work, n, s, declares, k)
}

/// Names every statement: the number of distinct names.
pub fn name_all(text: &[u8], work: &mut [u32], n: usize, rows: usize) -> usize
    requires { SomeRead text.now work.old n rows }
    ensures { AllNamed text.now work.old work.new n rows result }
{
    let mut k = 0;
    for s in 0..rows {
        k = name_statement(text, work, n, s, k);
    }
    k
}
