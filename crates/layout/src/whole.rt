// Whole records: whether one fits its layout to the last byte.
// The payload of each kind is cut part by part; a record fits if nothing is left.
ghost use Rattle.std.specs.Prelude.{◌≡◌, ◌<◌, ◌^◌, option_copied};
ghost use Rattle.paper.specs.Layout.{float_head, back_parts};
ghost use Rattle.layout.specs.Cuts.{left, assertion_tail, assertion_parts, payload_parts, fitting};

use crate::cut::{
    ADDRESS, after_counted, after_expression, after_hypotheses, after_names, after_part,
    after_string, after_stub,
};
use stream::walk::{string_stop, u16_at};

/// After start, end, label and typecode of a `$f`.
fn after_head(bytes: &[u8]) -> Option<&[u8]>
    ensures { option_copied result ≡ left (float_head bytes.now) }
{
    let close = after_part(bytes, ADDRESS)?;
    let label = after_part(close, ADDRESS)?;
    let typecode = after_string(label)?;
    after_string(typecode)
}

/// After target, pairs and rows of an assertion with so many variables.
fn after_back(bytes: &[u8], variables: usize) -> Option<&[u8]>
    requires { variables < 2 ^ 16 }
    ensures { option_copied result ≡ left (back_parts variables bytes.now) }
{
    let pairs = after_expression(bytes)?;
    let rows = after_counted(pairs, 4)?;
    after_part(rows, variables * variables.div_ceil(8))
}

/// After all parts of an assertion that follow its label.
fn after_tail(bytes: &[u8]) -> Option<&[u8]>
    ensures { option_copied result ≡ left (assertion_tail bytes.now) }
{
    let hypotheses = after_names(bytes)?;
    let target = after_hypotheses(hypotheses)?;
    after_back(target, u16_at(bytes, 0))
}

/// After all parts of an assertion.
fn after_assertion(bytes: &[u8]) -> Option<&[u8]>
    ensures { option_copied result ≡ left (assertion_parts bytes.now) }
{
    let label = after_part(bytes, ADDRESS)?;
    let tail = after_string(label)?;
    after_tail(tail)
}

/// After all parts of a payload of this kind: a `$f` with a plain variable string or with a stub string, or an assertion.
fn after_payload(bytes: &[u8], kind: usize) -> Option<&[u8]>
    ensures { option_copied result ≡ left (payload_parts kind bytes.now) }
{
    match kind {
        4 => after_string(after_head(bytes)?),
        1 => after_stub(after_head(bytes)?),
        2 | 3 => after_assertion(bytes),
        _ => None,
    }
}

/// The place after the record at a place, if it fits its layout to the last byte.
pub fn after_record(bytes: &[u8], at: usize) -> Option<usize>
    ensures { result ≡ fitting bytes.now at }
{
    if bytes.len() <= at {
        return None;
    }
    let end = string_stop(bytes, at, bytes.len())?;
    if end < at + 6 {
        return None;
    }
    let kind = u16_at(bytes, at + 4);
    let rest = after_payload(&bytes[at + 6..end], kind)?;
    if !rest.is_empty() {
        return None;
    }
    Some(end)
}
