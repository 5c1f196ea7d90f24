// The converter: a stream's kind 1 records become kind 4, all others stay as they are.
// The whole stream is looked at first; nothing is written unless all of it fits.
ghost use Rattle.std.specs.Prelude.{◌≡◌, ◌+◌, ◌<◌, ◌^◌, length};
ghost use Rattle.paper.specs.Layout.{lowered};
ghost use Rattle.paper.specs.Convert.{renewed, renewal};
ghost use Rattle.stream.specs.Wrote.{Wrote};
ghost use Rattle.layout.specs.Lowers.{Lowers, Renews};
ghost use Rattle.layout.specs.Renewal.{unfit, AllFit, Converts};

use crate::whole::after_record;
use paper::{Converted, Unconverted};
use stream::walk::{u16_at, u32_at};
use stream::write;

/// The first record of a stream that does not fit its layout.
pub fn first_unfit(stream: &[u8]) -> Option<usize>
    ensures { result ≡ unfit stream.now }
{
    let mut at = 0;
    while at < stream.len() {
        let Some(next) = after_record(stream, at) else {
            return Some(at);
        };
        at = next;
    }
    None
}

/// Bytes, the last one with 128 taken off.
fn put_lowered(out: &mut [u8], at: usize, bytes: &[u8]) -> usize
    requires { (at + length bytes.now < 2 ^ 64) × Lowers bytes.now }
    ensures { (result ≡ at + length bytes.now) × Wrote out.old out.new at result (lowered bytes.now) }
{
    let Some((last, front)) = bytes.split_last() else {
        return at;
    };
    let at = write::put_bytes(out, at, front);
    write::put_byte(out, at, *last - 128)
}

/// A record; one of kind 1 as kind 4.
fn put_renewed(out: &mut [u8], at: usize, bytes: &[u8]) -> usize
    requires { (at + length bytes.now < 2 ^ 64) × Renews bytes.now }
    ensures { (result ≡ at + length bytes.now) × Wrote out.old out.new at result (renewed bytes.now) }
{
    if u16_at(bytes, 4) != 1 {
        return write::put_bytes(out, at, bytes);
    }
    let at = write::put_bytes(out, at, &bytes[..4]);
    let at = write::put_u16(out, at, 4);
    put_lowered(out, at, &bytes[6..])
}

/// All records of a stream that fits, renewed.
fn put_all(stream: &[u8], out: &mut [u8]) -> usize
    requires { AllFit stream.now }
    ensures { (result ≡ length stream.now) × Wrote out.old out.new 0 result (renewal stream.now) }
{
    let mut at = 0;
    while at < stream.len() {
        let end = at + 4 + u32_at(stream, at);
        at = put_renewed(out, at, &stream[at..end]);
    }
    at
}

/// A stream with its kind 1 records as kind 4; or number 10, or number 8, and nothing written.
pub fn convert(stream: &[u8], out: &mut [u8]) -> Converted
    ensures { Converts stream.now out.old out.new result }
{
    if let Some(at) = first_unfit(stream) {
        return Err(Unconverted::Unfit(at as u64));
    }
    if out.len() < stream.len() {
        return Err(Unconverted::NoRoom(stream.len() as u64));
    }
    Ok(put_all(stream, out) as u64)
}
