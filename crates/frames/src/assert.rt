// The frame of an accepted assertion (carries construct_full_frame).
// Variables are numbered, the record is written, and the numbers are taken away again.
ghost use Rattle.std.specs.Prelude.{◌≡◌, ◌<◌, ◌^◌};
ghost use Rattle.frames.specs.Assert.{drawn_of, SomeFraming, Frames};

use crate::Frame;
use crate::scan::{scan_dv, scan_expression};
use paper::{Setting, StatementRow, TokenIndex};

/// The most variables of a frame.
pub const MOST_VARIABLES: usize = 4095;

/// How many variables are written: the mandatory ones, or all.
fn drawn(setting: Setting, vars: usize, mandatory: usize) -> usize
    ensures { result ≡ drawn_of setting vars mandatory }
{
    match setting {
        Setting::Short => mandatory,
        Setting::Full => vars,
    }
}

/// Stores the frame of the assertion in a row, with `es` active `$e` and `ds` active `$d`: the place after the record, or none
/// for too many variables. All its variables are numbered and counted, whichever are written.
pub fn construct_full_frame(
    text: &[u8],
    work: &mut [u32],
    n: usize,
    buf: &mut [u8],
    at: usize,
    row: StatementRow,
    es: usize,
    ds: usize,
    setting: Setting,
) -> Option<usize>
    requires { SomeFraming text.now work.old n row.0 es ds × (at < 2 ^ 56) }
    ensures { Frames setting text.now work.old work.new n row.0 es ds buf.old buf.new at result }
{
    let active = sight::scan_all(work, n, 0, area::ESS, es, TokenIndex(1));
    let mandatory = scan_expression(work, n, active, row);
    let vars = scan_dv(work, n, mandatory, ds);
    if MOST_VARIABLES < vars {
        sight::forget(work, n, vars);
        return None;
    }
    let size = drawn(setting, vars, mandatory);
    let frame = Frame {
        row,
        es,
        ds,
        size,
        mandatory,
    };
    let after = frame.put(text, work, n, buf, at);
    sight::forget(work, n, vars);
    Some(after)
}
