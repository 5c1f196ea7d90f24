// What can be asked of the record at a place of a frame stream: label, kind, V, M, hypothesis count.
// Each function answers also for a record that does not hold what is asked.
ghost use Rattle.std.specs.Prelude.{◌≡◌, ◌≤◌, length};
ghost use Rattle.stream.specs.Fields.{label_at, kind_at, counts_at, variables_at, mandatory_at, hypotheses_at, after_strings};

use crate::walk;

/// A part of a record, from a place up to the record's end.
#[derive(Clone, Copy)]
pub struct Part {
    pub from: usize,
    pub end: usize,
}

/// The label; no bytes for a record that is not well framed.
pub fn label_at(bytes: &[u8], at: usize) -> &[u8]
    ensures { result.now ≡ label_at bytes.now at }
{
    match walk::record_at(bytes, at) {
        Some(r) => &bytes[r.label..r.stop],
        None => &bytes[..0],
    }
}

/// The kind.
pub fn kind_at(bytes: &[u8], at: usize) -> Option<usize>
    ensures { result ≡ kind_at bytes.now at }
{
    Some(walk::record_at(bytes, at)?.kind)
}

/// What follows the label of an assertion, from V and M on.
fn counts_at(bytes: &[u8], at: usize) -> Option<Part>
    ensures { result ≡ counts_at bytes.now at }
{
    let r = walk::record_at(bytes, at)?;
    if matches!(r.kind, 1 | 4) || r.after - r.stop < 4 {
        return None;
    }
    Some(Part {
        from: r.stop,
        end: r.after,
    })
}

/// V, the number of variables of an assertion.
pub fn variables_at(bytes: &[u8], at: usize) -> Option<usize>
    ensures { result ≡ variables_at bytes.now at }
{
    let counts = counts_at(bytes, at)?;
    Some(walk::u16_at(bytes, counts.from))
}

/// M, the number of mandatory variables of an assertion.
pub fn mandatory_at(bytes: &[u8], at: usize) -> Option<usize>
    ensures { result ≡ mandatory_at bytes.now at }
{
    let counts = counts_at(bytes, at)?;
    Some(walk::u16_at(bytes, counts.from + 2))
}

/// The place after a number of strings that stand one after the other.
fn after_strings(bytes: &[u8], from: usize, end: usize, count: usize) -> Option<usize>
    requires { (from ≤ end) × (end ≤ length bytes.now) }
    ensures { result ≡ after_strings bytes.now end count from }
{
    let mut at = from;
    for _ in 0..count {
        at = walk::string_stop(bytes, at, end)?;
    }
    Some(at)
}

/// The number of hypotheses of an assertion, after its V variable strings and its pool string.
pub fn hypotheses_at(bytes: &[u8], at: usize) -> Option<usize>
    ensures { result ≡ hypotheses_at bytes.now at }
{
    let counts = counts_at(bytes, at)?;
    let strings = walk::u16_at(bytes, counts.from) + 1;
    let place = after_strings(bytes, counts.from + 4, counts.end, strings)?;
    if counts.end - place < 4 {
        return None;
    }
    Some(walk::u32_at(bytes, place))
}
