// The operations that the firm calls: measure, writer, and look-up by label. For any bytes and any lent buffers; nothing is asked.
// What they promise is said over the definitions of `paper`, in `specs/Promise.antt`.
#![tactic(auto)]

ghost use Rattle.layout.specs.Renewal.{Converts};
ghost use Rattle.catalogue.specs.Promise.{Measures, Writes, Looks};

use crate::streams::{answer_read, measure_read};
use paper::{Answer, Converted, Found, Setting};

pub mod streams;

/// Reads and checks the text: the bytes of both streams and the number of frames. The work area is zeros at exit.
pub fn measure(text: &[u8], work: &mut [u32], setting: Setting) -> Answer
    ensures { Measures setting text.now work.old work.new result }
{
    let read = reader::read(text, work)?;
    let needs = measure_read(text, work, read.rows, setting);
    area::clear(work);
    needs
}

/// Reads the text, checks and frames it, as the setting says, whether it was measured or not. On refusal both output buffers are unchanged;
/// the work area is zeros at exit.
pub fn write(
    text: &[u8],
    work: &mut [u32],
    frames: &mut [u8],
    diags: &mut [u8],
    setting: Setting,
) -> Answer
    ensures { Writes setting text.now work.old work.new frames.old frames.new diags.old diags.new result }
{
    let read = reader::read(text, work)?;
    let answer = answer_read(text, work, frames, diags, read.rows, setting);
    area::clear(work);
    answer
}

/// The offset of the record that bears a label, byte by byte; or the first record that is no record.
pub fn lookup(frames: &[u8], label: &[u8]) -> Found
    ensures { Looks frames.now label.now result }
{
    stream::walk::lookup(frames, label)
}

/// A frame stream with its kind 1 records as kind 4 and all others as they are; or the first record that does not fit its
/// layout, or the bytes needed, and nothing written.
pub fn convert(stream: &[u8], out: &mut [u8]) -> Converted
    ensures { Converts stream.now out.old out.new result }
{
    layout::convert::convert(stream, out)
}
