// One item of a text: a statement, `${` or `$}`.
// Each function promises the state after the item, or the refusal that the definitions give the text.
ghost use Rattle.std.specs.Prelude.{◌≡◌, ◌+◌, ◌<◌, ◌≤◌, set};
ghost use Rattle.token.specs.Words.{Lined};
ghost use Rattle.reader.specs.Passed.{Shows};
ghost use Rattle.reader.specs.Kept.{EventRoom, opened, shut_one};
ghost use Rattle.reader.specs.Held.{Held, Begun, Stated, Turned, Taken};
ghost use Rattle.area.specs.Cells.{bucket_cell};

use crate::comment::next_visible;
use crate::kind::{Kind, label_code, plain_code};
use crate::proof::read_proof;
use crate::refuse::{bad_token, open_text};
use crate::run::{close_run, read_run};
use crate::state::{Head, State, keep};
use area::bucket;
use paper::Refused;
use token::cursor::{Cursor, KEY_CLOSE, KEY_OPEN, KEY_STOP, Span, is_key};

/// Reads the proof of a `$p` from `c` on, and keeps the statement.
pub fn read_rest(
    text: &[u8],
    work: &mut [u32],
    n: usize,
    s: State,
    h: Head,
    to: usize,
    count: usize,
    c: Cursor,
) -> Result<State, Refused>
    requires { Stated text.now work.old n s h to count c.at × Lined text.now c }
    ensures { Turned text.now work.new n s.cursor.at result }
{
    let proof = read_proof(text, c);
    let d = close_run(text, proof, 1, KEY_STOP)?;
    Ok(keep(work, s, Kind::P.number(), h, to, count, d))
}

/// Reads the math string and what closes it, and for a `$p` its proof; keeps the statement.
pub fn read_body(
    text: &[u8],
    work: &mut [u32],
    n: usize,
    s: State,
    kind: Kind,
    h: Head,
) -> Result<State, Refused>
    requires { Begun text.now work.old n s kind h }
    ensures { Turned text.now work.new n s.cursor.at result }
{
    let run = read_run(text, work, n, h.from, kind.most(), s.maths);
    let d = close_run(text, run, kind.least(), kind.closing())?;
    match kind {
        Kind::P => read_rest(text, work, n, s, h, run.stop.at, run.count, d),
        _ => Ok(keep(work, s, kind.number(), h, run.stop.at, run.count, d)),
    }
}

/// Reads the statement whose label is x, with the cursor c after it.
pub fn read_labelled(
    text: &[u8],
    work: &mut [u32],
    n: usize,
    s: State,
    x: Span,
    c: Cursor,
) -> Result<State, Refused>
    requires { Held text.now work.old n s × Shows text.now s.cursor.at x c × (4 ≤ x.least) }
    ensures { Turned text.now work.new n s.cursor.at result }
{
    let Some((y, from)) = next_visible(text, c)? else {
        return Err(open_text(text));
    };
    let Some(kind) = label_code(text, y) else {
        return Err(bad_token(y));
    };
    let h = Head {
        at: x.start,
        label: x.stop - x.start,
        from,
    };
    read_body(text, work, n, s, kind, h)
}

/// Opens a group; the state after it, at `c`.
pub fn open_group(work: &mut [u32], n: usize, s: State, c: Cursor) -> State
    requires { EventRoom work.old n s }
    ensures { (work.new ≡ set work.old (bucket_cell n s.items) 1) × (result ≡ opened s c) }
{
    work[bucket(n, s.items)] = 1;
    State {
        cursor: c,
        items: s.items + 1,
        depth: s.depth + 1,
        ..s
    }
}

/// Closes a group at its `$}`; the state after it, at `c`.
pub fn close_group(work: &mut [u32], n: usize, s: State, start: usize, c: Cursor) -> State
    requires { EventRoom work.old n s × (0 < s.depth) × (start ≤ 16777216) }
    ensures { (work.new ≡ set work.old (bucket_cell n s.items) (start + 2)) × (result ≡ shut_one s c) }
{
    work[bucket(n, s.items)] = (start + 2) as u32;
    State {
        cursor: c,
        items: s.items + 1,
        depth: s.depth - 1,
        ..s
    }
}

/// Reads what the token x begins, with the cursor c after it.
pub fn read_from(
    text: &[u8],
    work: &mut [u32],
    n: usize,
    s: State,
    x: Span,
    c: Cursor,
) -> Result<State, Refused>
    requires { Held text.now work.old n s × Shows text.now s.cursor.at x c }
    ensures { Turned text.now work.new n s.cursor.at result }
{
    if 4 <= x.least {
        return read_labelled(text, work, n, s, x, c);
    }
    let word = &text[x.start..x.stop];
    if is_key(word, KEY_OPEN) {
        return Ok(open_group(work, n, s, c));
    }
    if is_key(word, KEY_CLOSE) {
        if s.depth == 0 {
            return Err(bad_token(x));
        }
        return Ok(close_group(work, n, s, x.start, c));
    }
    let Some(kind) = plain_code(text, x) else {
        return Err(bad_token(x));
    };
    let h = Head {
        at: x.start,
        label: 0,
        from: c,
    };
    read_body(text, work, n, s, kind, h)
}

/// Reads the next item; none if the text ends before it.
pub fn read_one(text: &[u8], work: &mut [u32], n: usize, s: State) -> Result<Option<State>, Refused>
    requires { Held text.now work.old n s }
    ensures { Taken text.now work.old work.new n s.cursor.at result }
{
    let Some((x, c)) = next_visible(text, s.cursor)? else {
        return Ok(None);
    };
    Ok(Some(read_from(text, work, n, s, x, c)?))
}
