// The diagnostics writer's small state, lent and changed in place as diagnostics are pushed.
// The work is `record::put_diag`'s; callers that keep the state by value call that one.
ghost use Rattle.std.specs.Prelude.{◌+◌, ◌<◌, ◌^◌};
ghost use Rattle.stream.specs.Diagnostic.{diagnostic};
ghost use Rattle.stream.specs.Pushed.{Pushed};

use crate::record;
use paper::{StatementOffset, TokenIndex};

/// How many bytes are used, and how many diagnostics they hold.
#[derive(Clone, Copy)]
pub struct DiagState {
    pub used: usize,
    pub count: usize,
}

/// Writes a diagnostic after the used bytes, and counts it. A buffer that is too short is left as it was.
pub fn push_diagnostic(
    state: &mut DiagState,
    out: &mut [u8],
    kind: u32,
    statement: StatementOffset,
    index: TokenIndex,
    other: u32,
)
    requires { (state.old.used + 18 < 2 ^ 64) × (state.old.count + 1 < 2 ^ 64) }
    ensures { Pushed state.old state.new out.old out.new (diagnostic kind statement.0 index.0 other) }
{
    state.used = record::put_diag(out, state.used, kind, statement, index, other);
    state.count += 1;
}
