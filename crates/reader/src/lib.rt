// The statement and group reader: numbers 1 to 6, and the statements of a text in the rows of the work area.
// What it leaves there is said in `specs/Rows.antt`; that and the answer are all that the crates above see.
#![tactic(auto)]

ghost use Rattle.reader.specs.Whole.{Reads};

use crate::whole::read_text;
use area::{clear, clear_part};
use paper::{Refusal, Refused, Statements};
use token::count::count;
use token::cursor::text_start;

pub mod comment;
pub mod end;
pub mod item;
pub mod kind;
pub mod proof;
pub mod refuse;
pub mod run;
pub mod state;
pub mod whole;

/// Reads a text. Where it is read, the rows of the work area hold its statements; else every word is 0.
pub fn read(text: &[u8], work: &mut [u32]) -> Result<Statements, Refused>
    ensures { Reads text.now work.old work.new result }
{
    if 16777216 < text.len() {
        clear(work);
        return Err(Refused {
            refusal: Refusal::LongText,
            line: 0,
        });
    }
    let counted = count(text);
    let n = counted.tokens + 1;
    if work.len() < 16 * n {
        clear(work);
        return Err(Refused {
            refusal: Refusal::ShortWork((16 * n) as u64),
            line: 0,
        });
    }
    let bad = counted.bad;
    if let Some(p) = bad {
        clear(work);
        return Err(Refused {
            refusal: Refusal::BadByte(p as u64),
            line: text_start().hop(text, p).line,
        });
    }
    clear_part(work, 7 * n, 8 * n);
    read_text(text, work, n)
}
