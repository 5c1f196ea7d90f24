// Reading a frame stream: numbers at a place, the framing of one record, and the look-up of a label.
// Nothing is changed; every buffer and every label has an answer.
ghost use Rattle.std.specs.Prelude.{◌≡◌, ◌+◌, ◌-◌, ◌<◌, ◌≤◌, ◌^◌, length, IfSome};
ghost use Rattle.paper.specs.Base.{sameb};
ghost use Rattle.paper.specs.Lookup.{u16_at, u32_at, stub_string, stub_at, stub_after, stub_if, look_up};
ghost use Rattle.stream.specs.Framing.{place_of, string_stop, label_in, framing, kept};

use paper::{Found, Malformed};

/// A well framed record: its kind, where its label starts and stops, and where the next record starts.
#[derive(Clone, Copy)]
pub struct Record {
    pub kind: usize,
    pub label: usize,
    pub stop: usize,
    pub after: usize,
}

/// The number of 16 bits at a place.
pub fn u16_at(bytes: &[u8], at: usize) -> usize
    requires { at + 2 ≤ length bytes.now }
    ensures { (result < 2 ^ 16) × (result ≡ u16_at bytes.now at) }
{
    u16::from_le_bytes([bytes[at], bytes[at + 1]]) as usize
}

/// The number of 32 bits at a place.
pub fn u32_at(bytes: &[u8], at: usize) -> usize
    requires { at + 4 ≤ length bytes.now }
    ensures { (result < 2 ^ 32) × (result ≡ u32_at bytes.now at) }
{
    u32::from_le_bytes([bytes[at], bytes[at + 1], bytes[at + 2], bytes[at + 3]]) as usize
}

/// Where the label string of a record of this kind stands, from the record's start; none for no kind.
pub fn label_place(kind: usize) -> Option<usize>
    ensures { IfSome result (λ p. p ≤ 14) × (result ≡ place_of kind) }
{
    match kind {
        1 | 4 => Some(14),
        2 | 3 => Some(10),
        _ => None,
    }
}

/// Whether bytes are under 128 but for the last, which is not.
pub fn is_stub(bytes: &[u8]) -> bool
    ensures { result ≡ stub_string bytes.now }
{
    let Some((last, front)) = bytes.split_last() else {
        return false;
    };
    // a `for`: `all` takes one step more for each byte
    for byte in front {
        if *byte >= 128 {
            return false;
        }
    }
    *last >= 128
}

/// Where the string at a place stops: its length and its bytes stand before `end`.
pub fn string_stop(bytes: &[u8], from: usize, end: usize) -> Option<usize>
    requires { (from + 4 < 2 ^ 64) × (end ≤ length bytes.now) }
    ensures { result ≡ string_stop bytes.now from end }
{
    let start = from + 4;
    if end < start {
        return None;
    }
    let length = u32_at(bytes, from);
    if end - start < length {
        return None;
    }
    Some(start + length)
}

/// Whether a stub string stands at a place, before `end`.
fn stub_at(bytes: &[u8], from: usize, end: usize) -> bool
    requires { (from ≤ end) × (end ≤ length bytes.now) }
    ensures { result ≡ stub_at bytes.now from end }
{
    match string_stop(bytes, from, end) {
        Some(stop) => is_stub(&bytes[from + 4..stop]),
        None => false,
    }
}

/// Whether a stub string stands after the typecode at a place, before `end`.
fn stub_after(bytes: &[u8], from: usize, end: usize) -> bool
    requires { (from ≤ end) × (end ≤ length bytes.now) }
    ensures { result ≡ stub_after bytes.now from end }
{
    match string_stop(bytes, from, end) {
        Some(stop) => stub_at(bytes, stop, end),
        None => false,
    }
}

/// Whether a record has what its kind needs after its label: kind 1 a typecode and a stub string.
fn stub_if(bytes: &[u8], kind: usize, from: usize, end: usize) -> bool
    requires { (from ≤ end) × (end ≤ length bytes.now) }
    ensures { result ≡ stub_if kind bytes.now from end }
{
    kind != 1 || stub_after(bytes, from, end)
}

/// The label of a record of this kind at a place, which stops at `after`.
fn label_in(bytes: &[u8], at: usize, kind: usize, after: usize) -> Option<Record>
    requires { (at ≤ after) × (after ≤ length bytes.now) }
    ensures { result ≡ label_in bytes.now at kind after }
{
    let place = at + label_place(kind)?;
    let stop = string_stop(bytes, place, after)?;
    if !stub_if(bytes, kind, stop, after) {
        return None;
    }
    Some(Record {
        kind,
        label: place + 4,
        stop,
        after,
    })
}

/// The framing of the record at a place; none if no record stands there that is well framed.
/// Put into its callers, most of which want one field: out of line, each pays for the whole record.
#[inline]
pub fn record_at(bytes: &[u8], at: usize) -> Option<Record>
    ensures { result ≡ framing bytes.now at }
{
    if bytes.len() <= at {
        return None;
    }
    let after = string_stop(bytes, at, bytes.len())?;
    if after < at + 6 {
        return None;
    }
    let kind = u16_at(bytes, at + 4);
    label_in(bytes, at, kind, after)
}

/// The record found so far, after the one at a place with its own label.
fn keep_first(found: Option<u64>, own: &[u8], label: &[u8], at: u64) -> Option<u64>
    ensures { result ≡ kept found (sameb own.now label.now) at }
{
    match found {
        None if own == label => Some(at),
        _ => found,
    }
}

/// The first record that bears a label, once all records are seen to be well framed.
pub fn lookup(frames: &[u8], label: &[u8]) -> Found
    ensures { result ≡ look_up frames.now label.now }
{
    let mut found = None;
    let mut at = 0;
    while at < frames.len() {
        let Some(r) = record_at(frames, at) else {
            return Err(Malformed(at as u64));
        };
        found = keep_first(found, &frames[r.label..r.stop], label, at as u64);
        at = r.after;
    }
    Ok(found)
}
