// What a record of a frame stream holds, for programs in other languages: asked through `FrameRef`, told in numbers.
// What it promises is in `specs/View.antt`. Nothing is asked of a caller.
ghost use Rattle.std.specs.Prelude.{◌≡◌};
ghost use Rattle.capi.specs.View.{told, view_number, label_start, Viewed};

use stream::field::label_at;
use stream::view::facts_of;
use stream::walk::label_place;

/// A number that is asked for; the greatest of 64 bits if the record does not hold it.
fn told(asked: Option<usize>) -> u64
    ensures { result ≡ told asked }
{
    asked.map_or(u64::MAX, |n| n as u64)
}

/// 0, or number 10 for a record that is not well framed.
fn view_number(kind: Option<usize>) -> u32
    ensures { result ≡ view_number kind }
{
    match kind {
        Some(_) => 0,
        None => 10,
    }
}

/// Where the label starts, from the record's first byte.
fn label_start(kind: Option<usize>) -> u64
    ensures { result ≡ label_start kind }
{
    match kind {
        Some(k) => (label_place(k).unwrap_or(0) + 4) as u64,
        None => 0,
    }
}

/// The record at a place: kind, where its label starts and how long it is, V, M and hypothesis count go into `view`.
#[unsafe(no_mangle)]
pub extern "C" fn janorembe_view(frames: &[u8], place: u64, view: &mut [u64; 6]) -> u32
    ensures { Viewed frames.now place view.new result }
{
    let at = place as usize;
    let facts = facts_of(frames, at);
    let label = label_at(frames, at).len();
    *view = [
        told(facts.kind),
        label_start(facts.kind),
        label as u64,
        told(facts.variables),
        told(facts.mandatory),
        told(facts.hypotheses),
    ];
    view_number(facts.kind)
}
