// Runs of math tokens: those of a math string, kept in the math column; and what closes a run.
// A run takes the comments in it along.
ghost use Rattle.std.specs.Prelude.{◌≡◌, [], ◌∷◌, ◌+◌, leb, ltb, get_or};
ghost use Rattle.paper.specs.Base.{and};
ghost use Rattle.token.specs.Words.{Lined};
ghost use Rattle.reader.specs.Passed.{Seen};
ghost use Rattle.reader.specs.Runs.{RunRoom, Stretched, Ran, closing_of};

use crate::comment::next_visible;
use crate::refuse::{bad_token, open_text};
use area::math;
use paper::Refused;
use token::cursor::{Cursor, Span, is_key};

/// A run of math tokens: how many, the cursor after the last, and what stands next outside comments.
#[derive(Clone, Copy)]
pub struct Run {
    pub count: usize,
    pub stop: Cursor,
    pub after: Result<Option<(Span, Cursor)>, Refused>,
}

/// How far a run has come: how many tokens, and the cursor after the last.
#[derive(Clone, Copy)]
pub struct Stretch {
    pub count: usize,
    pub stop: Cursor,
}

/// Whether a token goes on with a run that has `count` of at most `most` tokens.
pub fn takes(x: Span, count: usize, most: usize) -> bool
    ensures { result ≡ and (leb 3 x.least) (ltb count most) }
{
    3 <= x.least && count < most
}

/// Goes on with a run that has `from` tokens, at `c`, over the math tokens that stand next with no comment between.
pub fn read_stretch(
    text: &[u8],
    work: &mut [u32],
    n: usize,
    c: Cursor,
    most: usize,
    first: usize,
    from: usize,
) -> Stretch
    requires { RunRoom text.now work.old n c.at (first + from) × Lined text.now c }
    ensures { Stretched text.now work.old work.new n most first c from result }
{
    let mut stop = c;
    let mut count = from;
    loop {
        let Some((x, d)) = stop.next(text) else {
            return Stretch { count, stop };
        };
        if !takes(x, count, most) {
            return Stretch { count, stop };
        }
        work[math(n, first + count)] = x.start as u32;
        count += 1;
        stop = d;
    }
}

/// The longest run of at most `most` math tokens from `c` on; their offsets stand in the math column from `first` on.
pub fn read_run(
    text: &[u8],
    work: &mut [u32],
    n: usize,
    c: Cursor,
    most: usize,
    first: usize,
) -> Run
    requires { RunRoom text.now work.old n c.at first × Lined text.now c }
    ensures { Ran text.now work.old work.new n c.at most first result }
{
    let mut stop = c;
    let mut count: usize = 0;
    loop {
        let plain = read_stretch(text, work, n, stop, most, first, count);
        stop = plain.stop;
        count = plain.count;
        let after = next_visible(text, stop);
        let Ok(Some((x, d))) = after else {
            return Run { count, stop, after };
        };
        if !takes(x, count, most) {
            return Run { count, stop, after };
        }
        work[math(n, first + count)] = x.start as u32;
        count += 1;
        stop = d;
    }
}

/// The cursor after the keyword that closes a run of at least `least` tokens.
pub fn close_run(text: &[u8], run: Run, least: usize, key: [u8; 2]) -> Result<Cursor, Refused>
    requires { Seen text.now run.stop.at run.after }
    ensures { result ≡ closing_of text.now run.after run.count least (get_or key 0 0 ∷ get_or key 1 0 ∷ []) }
{
    let Some((x, d)) = run.after? else {
        return Err(open_text(text));
    };
    if run.count < least {
        return Err(bad_token(x));
    }
    if !is_key(&text[x.start..x.stop], key) {
        return Err(bad_token(x));
    }
    Ok(d)
}
