// What a statement's row says, and whether the statement owns its label.
// A label's first bearer owns it; another statement with the label gets kind 1.
ghost use Rattle.std.specs.Prelude.{◌≡◌, ◌+◌, ◌*◌, ◌<◌, ◌≤◌};
ghost use Rattle.area.specs.Cells.{statement_cell, word};
ghost use Rattle.reader.specs.Kinds.{number_of};
ghost use Rattle.slots.specs.Kept.{Room};
ghost use Rattle.scopeck.specs.Scope.{row_of, Borne, Owns};

use crate::Row;
use nameck::lookup::lookup_label;
use paper::{Atom, StatementOffset};
use reader::kind::Kind;
use slots::cells::of_statement;

impl Row {
    /// The words of a statement's row.
    pub fn read(work: &[u32], n: usize, row: usize) -> Self
        requires { Room work.now n × (3 * row + 3 ≤ n) }
        ensures { result ≡ row_of work.now row }
    {
        Row {
            at: StatementOffset(of_statement(work, n, row, area::AT)),
            label: Atom(of_statement(work, n, row, area::LABEL)),
            from: of_statement(work, n, row, area::FROM),
            end: of_statement(work, n, row, area::END),
            first: of_statement(work, n, row, area::FIRST) as usize,
            count: of_statement(work, n, row, area::COUNT) as usize,
        }
    }
}

/// The kind of a statement, by the word of its row.
pub fn kind_of(work: &[u32], n: usize, row: usize) -> Kind
    requires { Room work.now n × (3 * row + 3 ≤ n) × (1 ≤ word work.now (statement_cell row 0)) × (word work.now (statement_cell row 0) ≤ 7) }
    ensures { number_of result ≡ word work.now (statement_cell row 0) }
{
    match of_statement(work, n, row, area::KIND) {
        1 => Kind::C,
        2 => Kind::V,
        3 => Kind::D,
        4 => Kind::F,
        5 => Kind::E,
        6 => Kind::A,
        _ => Kind::P,
    }
}

/// The label of the statement at `s`, which bears it, if that is the first to do so.
pub fn check_label_dup(work: &[u32], n: usize, label: Atom, s: StatementOffset) -> Option<Atom>
    requires { Room work.now n × (label.0 < n) × Borne work.now n label.0 }
    ensures { Owns work.now n label.0 s.0 result }
{
    let Some(o) = lookup_label(work, n, label) else {
        unreachable!()
    };
    if o.0 == s.0 {
        return Some(label);
    }
    None
}
