// The frame of one statement, once it is checked.
// An accepted `$f` has a stub frame, an accepted `$a` or `$p` a full one, and nothing else has any.
ghost use Rattle.std.specs.Prelude.{◌<◌, ◌^◌};
ghost use Rattle.fold.specs.Turn.{SomeTurn, Turned};

use frames::assert::construct_full_frame;
use frames::stub::construct_stub_frame;
use paper::{Setting, StatementRow};
use reader::kind::Kind;
use scopeck::Scope;
use scopeck::rows::kind_of;
use slots::cells::of_statement;

/// Stores the frame of the statement in a row, if it has one: the place after it, or none for too many variables.
pub fn frame_statement(
    text: &[u8],
    work: &mut [u32],
    n: usize,
    frames: &mut [u8],
    at: usize,
    st: Scope,
    row: StatementRow,
    setting: Setting,
) -> Option<usize>
    requires { SomeTurn text.now work.old n st row.0 × (at < 2 ^ 56) }
    ensures { Turned setting text.now work.old work.new n st row.0 frames.old frames.new at result }
{
    let line = row.0 as usize;
    if of_statement(work, n, line, area::ACCEPTED) == 0 {
        return Some(at);
    }
    match kind_of(work, n, line) {
        Kind::F => Some(construct_stub_frame(text, work, n, frames, at, row)),
        Kind::A | Kind::P => {
            construct_full_frame(text, work, n, frames, at, row, st.es, st.ds, setting)
        }
        _ => Some(at),
    }
}
