// The math tokens of a statement, one after the other: the tokens of its part of the text that stand outside comments.
// The part is gone over by the cursor, from its line 1.
ghost use Rattle.std.specs.Prelude.{◌≡◌, ◌-◌, ◌<◌, ◌^◌, length};
ghost use Rattle.std.specs.Iterator.{at_most};
ghost use Rattle.checks.specs.Visible.{visible_from, Calm, Going, Gives};

use reader::comment::next_visible;
use token::cursor::{Cursor, text_start};

/// A math token: its index, and where it starts in the part.
#[derive(Clone, Copy)]
pub struct MathToken {
    pub index: usize,
    pub start: usize,
}

/// The math tokens of a part from a place on, and how many stand before it.
#[derive(Drop)]
pub struct MathTokens<'a> {
    part: &'a [u8],
    cursor: Cursor,
    index: usize,
    ghost going: { Going part.now cursor index },
}

impl<'a> MathTokens<'a> {
    /// All math tokens of a part.
    pub fn of(part: &'a [u8]) -> Self
        requires { Calm part.now × (length (visible_from part.now 0) < 2 ^ 60) }
        ensures { (result.part.now ≡ part.now) × (result.index ≡ 0) }
    {
        MathTokens {
            part,
            cursor: text_start(),
            index: 0,
        }
    }
}

impl Iterator for MathTokens<'_> {
    type Item = MathToken;

    ghost next_gives = { λ s r t. Gives s.part.now s.index r t.part.now t.index };

    ghost remaining = { λ s. at_most (length (visible_from s.part.now 0) - s.index) };

    fn next(&mut self) -> Option<MathToken> {
        match next_visible(self.part, self.cursor) {
            Ok(Some((x, cursor))) => {
                let index = self.index;
                self.cursor = cursor;
                self.index = index + 1;
                Some(MathToken {
                    index,
                    start: x.start,
                })
            }
            Ok(None) => None,
            Err(_) => None,
        }
    }
}
