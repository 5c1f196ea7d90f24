// The proof of a `$p`: whether it has a token, and what stands after its math tokens.
// Its bytes are passed up to the next that is neither white space nor a math byte, not token by token.
ghost use Rattle.std.specs.Prelude.{◌≡◌, ◌≤◌, length};
ghost use Rattle.token.specs.Words.{Lined};
ghost use Rattle.reader.specs.Hops.{Odd, Hopped};
ghost use Rattle.reader.specs.Runs.{Proved};

use crate::comment::{next_visible, start_of};
use crate::run::Run;
use token::class::class_of;
use token::cursor::Cursor;

/// The first byte from `at` on that is neither white space nor a math byte, or the length.
pub fn next_odd(text: &[u8], at: usize) -> usize
    requires { at ≤ length text.now }
    ensures { Odd text.now at result }
{
    for i in at..text.len() {
        let c = class_of(text[i]);
        if c == 0 || c == 2 {
            return i;
        }
    }
    text.len()
}

/// A cursor from `c` on up to which only math tokens stand. A token starts there, or the text ends, and the bytes of that
/// token alone are read again: after it the proof goes on only where it starts a comment.
pub fn past_math(text: &[u8], c: Cursor) -> Cursor
    requires { (c.at ≤ length text.now) × Lined text.now c }
    ensures { Hopped text.now c.at result.at × Lined text.now result }
{
    let k = next_odd(text, c.at);
    c.hop(text, start_of(text, c.at, k))
}

/// The longest run of math tokens from `c` on, counted only as none (0) or some (1).
pub fn read_proof(text: &[u8], c: Cursor) -> Run
    requires { Lined text.now c }
    ensures { Proved text.now c.at result }
{
    let mut stop = c;
    let mut count: usize = 0;
    loop {
        let after = next_visible(text, stop);
        let Ok(Some((x, d))) = after else {
            return Run { count, stop, after };
        };
        if x.least < 3 {
            return Run { count, stop, after };
        }
        count = 1;
        stop = past_math(text, d);
    }
}
