// Writers of whole records: a diagnostic, and the stub frame of a `$f`.
// Each is written from its parts, in document 01's order.
ghost use Rattle.std.specs.Prelude.{◌≡◌, ◌+◌, ◌<◌, ◌^◌, length};
ghost use Rattle.paper.specs.Frames.{stub};
ghost use Rattle.paper.specs.Records.{diag_record, frame_record};
ghost use Rattle.stream.specs.Wrote.{Wrote, WroteOrKept};
ghost use Rattle.stream.specs.Diagnostic.{diagnostic};

use crate::write;
use paper::{StatementOffset, TokenIndex};

/// A diagnostic: length 14, kind, statement, token index, other. A buffer that is too short is left as it was.
pub fn put_diag(
    out: &mut [u8],
    at: usize,
    kind: u32,
    statement: StatementOffset,
    index: TokenIndex,
    other: u32,
) -> usize
    requires { at + 18 < 2 ^ 64 }
    ensures { (result ≡ at + 18) × WroteOrKept out.old out.new at result (diag_record (diagnostic kind statement.0 index.0 other)) }
{
    let end = at + 18;
    if out.len() < end {
        return end;
    }
    let at = write::put_u32(out, at, 14);
    let at = write::put_u16(out, at, kind as u64);
    let at = write::put_u32(out, at, statement.0 as u64);
    let at = write::put_u32(out, at, index.0 as u64);
    write::put_u32(out, at, other as u64)
}

/// The stub frame of a `$f`: kind 4, start, end, label, typecode, variable.
pub fn put_stub(
    out: &mut [u8],
    at: usize,
    start: StatementOffset,
    end: u32,
    label: &[u8],
    typecode: &[u8],
    variable: &[u8],
) -> usize
    requires { at + length label.now + length typecode.now + length variable.now < 2 ^ 60 }
    ensures { (result ≡ at + 26 + length label.now + length typecode.now + length variable.now) × Wrote out.old out.new at result (frame_record (stub start.0 end label.now typecode.now variable.now)) }
{
    let n = 22 + label.len() + typecode.len() + variable.len();
    let at = write::put_u32(out, at, n as u64);
    let at = write::put_u16(out, at, 4);
    let at = write::put_u32(out, at, start.0 as u64);
    let at = write::put_u32(out, at, end as u64);
    let at = write::put_string(out, at, label);
    let at = write::put_string(out, at, typecode);
    write::put_string(out, at, variable)
}
