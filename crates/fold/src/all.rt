// All statements, one after the other, into both streams; it ends at the first frame with over 4,095 variables.
// The words of the names are as they were when the next statement is looked at.
ghost use Rattle.std.specs.Prelude.{◌<◌, ◌^◌};
ghost use Rattle.fold.specs.Fold.{SomeBefore, Stepped, SomeBlank, FoldsBlank, SomeWhole, FoldsAll};

use crate::turn::frame_statement;
use paper::{Setting, StatementOffset, StatementRow};
use scopeck::Scope;
use scopeck::statements::{check_statement, forget_all};
use slots::cells::of_statement;

/// The used lengths of frames and diagnostics, and the number of frames.
#[derive(Clone, Copy)]
pub struct Streams {
    pub frames: usize,
    pub diags: usize,
    pub count: usize,
}

/// One statement: its checks, and then its frame. The state after it and the place after its frame, or none for too many
/// variables.
pub fn fold_statement(
    text: &[u8],
    work: &mut [u32],
    n: usize,
    frames: &mut [u8],
    diags: &mut [u8],
    st: Scope,
    at: usize,
    row: StatementRow,
    setting: Setting,
) -> Option<(Scope, usize)>
    requires { SomeBefore text.now work.old n st row.0 × (at < 2 ^ 56) }
    ensures { Stepped setting text.now work.old work.new frames.old frames.new diags.old diags.new n st at row.0 result }
{
    let next = check_statement(text, work, n, diags, st, row.0 as usize);
    let after = frame_statement(text, work, n, frames, at, next, row, setting)?;
    Some((next, after))
}

/// The statements of all rows, where nothing is recorded yet; the error is the first assertion with too many variables.
pub fn fold_rows(
    text: &[u8],
    work: &mut [u32],
    n: usize,
    frames: &mut [u8],
    diags: &mut [u8],
    rows: usize,
    setting: Setting,
) -> Result<Streams, StatementOffset>
    requires { SomeBlank text.now work.old n rows }
    ensures { FoldsBlank setting text.now work.old work.new frames.old frames.new diags.old diags.new n rows result }
{
    let mut st = Scope {
        es: 0,
        ds: 0,
        diags: 0,
    };
    let mut at = 0;
    let mut count = 0;
    for row in 0..rows {
        let line = StatementRow(row as u32);
        let Some((next, after)) = fold_statement(
            text, work, n, frames, diags, st, at, line, setting,
        ) else {
            return Err(StatementOffset(of_statement(work, n, row, area::AT)));
        };
        count += usize::from(at < after); // a statement has at most one record, and none is empty
        st = next;
        at = after;
    }
    Ok(Streams {
        frames: at,
        diags: st.diags,
        count,
    })
}

/// The fold over all statements of a text that is named and whose constants are marked; the error is that of `fold_rows`.
pub fn fold_all(
    text: &[u8],
    work: &mut [u32],
    n: usize,
    frames: &mut [u8],
    diags: &mut [u8],
    rows: usize,
    names: usize,
    setting: Setting,
) -> Result<Streams, StatementOffset>
    requires { SomeWhole text.now work.old n rows names }
    ensures { FoldsAll setting text.now work.old work.new frames.old frames.new diags.old diags.new n rows names result }
{
    forget_all(work, n, names);
    fold_rows(text, work, n, frames, diags, rows, setting)
}
