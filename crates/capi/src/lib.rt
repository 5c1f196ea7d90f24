// Measure, writer, look-up and converter for programs in other languages: document 01's numbers in place of enums.
// `include/janorembe.h` declares them; what they promise is in `specs/Promise.antt`. Nothing is asked of a caller.
#![tactic(auto)]

ghost use Rattle.capi.specs.Promise.{Gauged, Written, Looked, Changed};

use crate::numbers::{setting_of, tell, tell_converted};
use paper::told::{found_number, found_place};

pub mod numbers;
pub mod view;

/// The number of `catalogue::measure`; place, line, lengths and number of frames go into `answer`.
#[unsafe(no_mangle)]
pub extern "C" fn janorembe_measure(
    text: &[u8],
    work: &mut [u32],
    full: u32,
    answer: &mut [u64; 8],
) -> u32
    ensures { Gauged full text.now work.old work.new answer.new result }
{
    tell(catalogue::measure(text, work, setting_of(full)), answer)
}

/// The number of `catalogue::write`; place, line, used lengths and number of frames go into `answer`.
#[unsafe(no_mangle)]
pub extern "C" fn janorembe_write(
    text: &[u8],
    work: &mut [u32],
    frames: &mut [u8],
    diags: &mut [u8],
    full: u32,
    answer: &mut [u64; 8],
) -> u32
    ensures { Written full text.now work.old work.new frames.old frames.new diags.old diags.new answer.new result }
{
    let setting = setting_of(full);
    tell(catalogue::write(text, work, frames, diags, setting), answer)
}

/// The number of `catalogue::lookup`; its place goes into `place`.
#[unsafe(no_mangle)]
pub extern "C" fn janorembe_lookup(frames: &[u8], label: &[u8], place: &mut u64) -> u32
    ensures { Looked frames.now label.now place.new result }
{
    let found = catalogue::lookup(frames, label);
    *place = found_place(found);
    found_number(found)
}

/// The number of `catalogue::convert`; place and used bytes go into `answer`.
#[unsafe(no_mangle)]
pub extern "C" fn janorembe_convert(stream: &[u8], out: &mut [u8], answer: &mut [u64; 2]) -> u32
    ensures { Changed stream.now out.old out.new answer.new result }
{
    tell_converted(catalogue::convert(stream, out), answer)
}
