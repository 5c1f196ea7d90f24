// Tokens outside comments, one after the other.
// A comment runs from the token `$(` to the next token that is exactly `$)`; `$(` and `$)` may not occur in it otherwise.
ghost use Rattle.std.specs.Prelude.{◌≡◌, ◌<◌, ◌≤◌, true, length, drop};
ghost use Rattle.token.specs.Words.{Lined, Spans, token_of};
ghost use Rattle.paper.specs.Base.{and};
ghost use Rattle.paper.specs.Tokens.{key};
ghost use Rattle.reader.specs.Dollar.{NextDollar, NextMark, Begins, gap_first, mark_first, closes_first, opens_at, seek, found};
ghost use Rattle.reader.specs.Passed.{Commented, Skipped, Seen};

use paper::{Refusal, Refused};
use token::class::{WHITE, class_of};
use token::cursor::{Cursor, DOLLAR, KEY_COMMENT, KEY_COMMENT_END, Span, is_key};

/// What a comment is: closed, with the cursor after its `$)`; closed, with the cursor at the first token that may not stand in it;
/// or never closed.
#[derive(Clone, Copy)]
pub enum Comment {
    Closed(Cursor),
    Bad(Cursor),
    Never,
}

/// The first `$` from `at` on, if there is one.
pub fn next_dollar(text: &[u8], at: usize) -> Option<usize>
    requires { at ≤ length text.now }
    ensures { NextDollar text.now at result }
{
    for i in at..text.len() {
        if text[i] == DOLLAR {
            return Some(i);
        }
    }
    None
}

/// Whether white space stands at `i`, or the text ends there.
pub fn gap_at(text: &[u8], i: usize) -> bool
    ensures { result ≡ gap_first (drop i text.now) }
{
    text.len() <= i || class_of(text[i]) == WHITE
}

/// Whether a token may start at `i`, in a comment that goes on from `at`.
pub fn opens_here(text: &[u8], at: usize, i: usize) -> bool
    requires { (at ≤ i) × (i < length text.now) }
    ensures { result ≡ opens_at text.now at i }
{
    i == at || class_of(text[i - 1]) == WHITE
}

/// Whether the token `$)` starts at `i`, in a comment that goes on from `at`.
pub fn closes_at(text: &[u8], at: usize, i: usize) -> bool
    requires { (at ≤ i) × (i < length text.now) }
    ensures { result ≡ and (opens_at text.now at i) (closes_first (drop i text.now)) }
{
    if !opens_here(text, at, i) {
        return false;
    }
    let stop = i + 2;
    if text.len() < stop {
        return false;
    }
    is_key(&text[i..stop], KEY_COMMENT_END) && gap_at(text, stop)
}

/// The place after the last white space from `at` up to `k`, or `at`.
pub fn start_of(text: &[u8], at: usize, k: usize) -> usize
    requires { (at ≤ k) × (k ≤ length text.now) }
    ensures { Begins text.now at k result }
{
    for i in (at..k).rev() {
        if class_of(text[i]) == WHITE {
            return i + 1;
        }
    }
    at
}

/// Whether `$(` or `$)` stands at `i`.
pub fn mark_at(text: &[u8], i: usize) -> bool
    requires { i < length text.now }
    ensures { result ≡ mark_first (drop i text.now) }
{
    let stop = i + 2;
    stop <= text.len()
        && (is_key(&text[i..stop], KEY_COMMENT) || is_key(&text[i..stop], KEY_COMMENT_END))
}

/// The first `$(` or `$)` from `at` on, if there is one. Kept out of line, and `i` moved on before the test: otherwise it takes more
/// steps for each byte, and for each `$`.
#[inline(never)]
pub fn next_mark(text: &[u8], at: usize) -> Option<usize>
    requires { at ≤ length text.now }
    ensures { NextMark text.now at result }
{
    let mut i = at;
    while let Some(k) = next_dollar(text, i) {
        i = k + 1;
        if mark_at(text, k) {
            return Some(k);
        }
    }
    None
}

/// Whether a token `$)` starts from `from` on, in a comment that goes on from `at`. Kept out of line: only a refused text comes here.
#[inline(never)]
pub fn closes_from(text: &[u8], at: usize, from: usize) -> bool
    requires { (at ≤ from) × (from ≤ length text.now) }
    ensures { result ≡ found (seek text.now at from) }
{
    let mut i = from;
    while let Some(k) = next_dollar(text, i) {
        if closes_at(text, at, k) {
            return true;
        }
        i = k + 1;
    }
    false
}

/// The comment that goes on from `c`, the cursor after its `$(`.
pub fn comment_end(text: &[u8], c: Cursor) -> Comment
    requires { (c.at ≤ length text.now) × Lined text.now c }
    ensures { Commented text.now c.at result }
{
    let at = c.at;
    let Some(k) = next_mark(text, at) else {
        return Comment::Never;
    };
    if closes_at(text, at, k) {
        return Comment::Closed(c.hop(text, k + 2));
    }
    if !closes_from(text, at, k + 1) {
        return Comment::Never;
    }
    Comment::Bad(c.hop(text, start_of(text, at, k)))
}

/// Whether the token x begins a comment.
pub fn opens_comment(text: &[u8], x: Span) -> bool
    requires { Spans text.now x }
    ensures { result ≡ key 40 (token_of text.now x) }
{
    if 3 <= x.least {
        return false;
    }
    is_key(&text[x.start..x.stop], KEY_COMMENT)
}

/// The cursor after the comment that the token x begins, with the cursor c after x.
pub fn skip_comment(text: &[u8], x: Span, c: Cursor) -> Result<Cursor, Refused>
    requires { Spans text.now x × (key 40 (token_of text.now x) ≡ true) × (c.at ≡ x.stop) × Lined text.now c }
    ensures { Skipped text.now x.start result }
{
    match comment_end(text, c) {
        Comment::Closed(d) => Ok(d),
        Comment::Bad(d) => Err(Refused {
            refusal: Refusal::BadToken(d.at as u64),
            line: d.line,
        }),
        Comment::Never => Err(Refused {
            refusal: Refusal::OpenComment(x.start as u64),
            line: x.line,
        }),
    }
}

/// The first token from `c` on that stands outside comments, with the cursor after it; none if there is no more.
pub fn next_visible(text: &[u8], c: Cursor) -> Result<Option<(Span, Cursor)>, Refused>
    requires { Lined text.now c }
    ensures { Seen text.now c.at result }
{
    let mut i = c;
    loop {
        let Some((x, d)) = i.next(text) else {
            return Ok(None);
        };
        if !opens_comment(text, x) {
            return Ok(Some((x, d)));
        }
        i = skip_comment(text, x, d)?;
    }
}
