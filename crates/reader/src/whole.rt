// The whole text: every item, then the ends; the words that served only to find them are cleared.
// The bucket column holds only zeros when the text is begun, and every word is 0 when it is refused.
ghost use Rattle.std.specs.Prelude.{◌≡◌, []};
ghost use Rattle.reader.specs.Kept.{Words};
ghost use Rattle.reader.specs.Whole.{AllRead, TextRead};

use crate::end::set_ends;
use crate::item::read_one;
use crate::refuse::open_text;
use crate::state::State;
use area::{clear, clear_part};
use paper::{Refused, Statements};
use token::cursor::text_start;

/// Reads all items; the state after the last.
pub fn read_all(text: &[u8], work: &mut [u32], n: usize) -> Result<State, Refused>
    requires { Words text.now work.old n [] 0 0 0 }
    ensures { AllRead text.now work.new n result }
{
    let mut s = State {
        cursor: text_start(),
        rows: 0,
        maths: 0,
        items: 0,
        depth: 0,
    };
    while let Some(r) = read_one(text, work, n, s)? {
        s = r;
    }
    if s.depth != 0 {
        return Err(open_text(text));
    }
    Ok(s)
}

/// Reads all items and finds the ends of the statements.
pub fn read_text(text: &[u8], work: &mut [u32], n: usize) -> Result<Statements, Refused>
    requires { Words text.now work.old n [] 0 0 0 }
    ensures { TextRead text.now work.old work.new n result }
{
    match read_all(text, work, n) {
        Ok(s) => {
            set_ends(work, n, s.rows, s.items);
            clear_part(work, 7 * n, 7 * n + s.items);
            clear_part(work, 8 * n, 8 * n + s.items);
            Ok(Statements {
                rows: s.rows,
                maths: s.maths,
            })
        }
        Err(r) => {
            clear(work);
            Err(r)
        }
    }
}
