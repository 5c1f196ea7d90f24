// The state of the reader, and what it keeps of a statement in the work area.
// While a text is read, each item (`${`, `$}`, a statement) has a word in the bucket column, from which ends are found after.
ghost use Rattle.std.specs.Prelude.{◌≡◌};
ghost use Rattle.reader.specs.Kept.{RowRoom, with_row, next_state};

use area::{AT, COUNT, FIRST, FROM, KIND, LABEL, TO, statement};
use token::cursor::Cursor;

/// How many statements, math tokens and items stand before the cursor, how many groups are open, and the cursor. It stands last, where
/// it lies under no tag of a `Result` or `Option` of a state: the back end then keeps it in registers.
#[derive(Clone, Copy)]
pub struct State {
    pub rows: usize,
    pub maths: usize,
    pub items: usize,
    pub depth: usize,
    pub cursor: Cursor,
}

/// The head of a statement: first token, label length (0 for none), and the cursor after the keyword.
#[derive(Clone, Copy)]
pub struct Head {
    pub at: usize,
    pub label: usize,
    pub from: Cursor,
}

/// Fills the row of a statement with this word for its kind, whose math string stops at `to`, but for its end; the state after it, at `c`.
pub fn keep(
    work: &mut [u32],
    s: State,
    kind: u32,
    h: Head,
    to: usize,
    count: usize,
    c: Cursor,
) -> State
    requires { RowRoom work.old s h to count }
    ensures { (work.new ≡ with_row work.old s.rows kind h to s.maths count) × (result ≡ next_state s count c) }
{
    work[statement(s.rows, KIND)] = kind;
    work[statement(s.rows, AT)] = h.at as u32;
    work[statement(s.rows, LABEL)] = h.label as u32;
    work[statement(s.rows, FROM)] = h.from.at as u32;
    work[statement(s.rows, TO)] = to as u32;
    work[statement(s.rows, FIRST)] = s.maths as u32;
    work[statement(s.rows, COUNT)] = count as u32;
    State {
        cursor: c,
        rows: s.rows + 1,
        maths: s.maths + count,
        items: s.items + 1,
        ..s
    }
}
