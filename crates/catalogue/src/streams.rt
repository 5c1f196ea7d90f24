// A text that is read: both streams are measured by a fold that writes nothing, and written only if both fit.
// Numbers 7, 8 and 9, in this order.
ghost use Rattle.std.specs.Prelude.{◌≡◌};
ghost use Rattle.paper.specs.Answer.{not_done};
ghost use Rattle.fold.specs.Fold.{SomeWhole};
ghost use Rattle.fold.specs.Start.{Read};
ghost use Rattle.catalogue.specs.Streams.{Sizes, Needed, Answered};

use fold::all::fold_all;
use fold::start::start;
use paper::{Answer, Lengths, Refusal, Refused, Setting};

/// A refusal by number 7, 8 or 9: its line is 0.
fn refused(refusal: Refusal) -> Answer
    ensures { result ≡ not_done refusal 0 }
{
    Err(Refused { refusal, line: 0 })
}

/// The lengths of both streams and the number of frames, or number 7.
fn sizes(
    text: &[u8],
    work: &mut [u32],
    n: usize,
    rows: usize,
    names: usize,
    setting: Setting,
) -> Answer
    requires { SomeWhole text.now work.old n rows names }
    ensures { Sizes setting text.now work.old work.new n rows names result }
{
    let mut frames = [0u8; 0];
    let mut diags = [0u8; 0];
    match fold_all(text, work, n, &mut frames, &mut diags, rows, names, setting) {
        Ok(s) => Ok(Lengths {
            frames: s.frames as u64,
            diags: s.diags as u64,
            count: s.count as u64,
        }),
        Err(s) => refused(Refusal::ManyVariables(s.0 as u64)),
    }
}

/// What the measure answers for a text of so many statements.
pub(crate) fn measure_read(text: &[u8], work: &mut [u32], rows: usize, setting: Setting) -> Answer
    requires { Read text.now work.old rows }
    ensures { Needed setting text.now work.old rows result }
{
    let at = start(text, work, rows);
    sizes(text, work, at.n, rows, at.names, setting)
}

/// What the writer answers for a text of so many statements.
pub(crate) fn answer_read(
    text: &[u8],
    work: &mut [u32],
    frames: &mut [u8],
    diags: &mut [u8],
    rows: usize,
    setting: Setting,
) -> Answer
    requires { Read text.now work.old rows }
    ensures { Answered setting text.now work.old rows frames.old frames.new diags.old diags.new result }
{
    let at = start(text, work, rows);
    let needs = sizes(text, work, at.n, rows, at.names, setting)?;
    if (frames.len() as u64) < needs.frames {
        return refused(Refusal::ShortFrames(needs.frames));
    }
    if (diags.len() as u64) < needs.diags {
        return refused(Refusal::ShortDiags(needs.diags));
    }
    let _ = fold_all(text, work, at.n, frames, diags, rows, at.names, setting);
    Ok(needs)
}
