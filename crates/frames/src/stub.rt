// The stub frame of an accepted `$f`.
// Names come from the text, as parts, by the words of their atoms.
ghost use Rattle.std.specs.Prelude.{◌<◌, ◌^◌};
ghost use Rattle.frames.specs.Stub.{CanStub, Stubs};

use forms::names::name_part;
use forms::words;
use paper::{StatementOffset, StatementRow, TokenIndex};

/// Stores the stub frame of the `$f` in a row.
pub fn construct_stub_frame(
    text: &[u8],
    work: &[u32],
    n: usize,
    frames: &mut [u8],
    at: usize,
    row: StatementRow,
) -> usize
    requires { CanStub text.now work.now n row.0 × (at < 2 ^ 59) }
    ensures { Stubs text.now work.now n row.0 frames.old frames.new at result }
{
    let start = words::statement_word(work, row, area::AT);
    let end = words::statement_word(work, row, area::END);
    let label = name_part(text, work, n, words::label_word(work, row));
    let typecode = name_part(text, work, n, words::math_word(work, n, row, TokenIndex(0)));
    let variable = name_part(text, work, n, words::math_word(work, n, row, TokenIndex(1)));
    stream::record::put_stub(
        frames,
        at,
        StatementOffset(start as u32),
        end as u32,
        label,
        typecode,
        variable,
    )
}
