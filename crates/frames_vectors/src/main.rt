// Runs reader, names and the fold over recorded texts and writes their frame streams. Standard input has the texts one after
// the other: u32 length, and the bytes. For each the stream is written as u32 length and bytes; 4294967295 if the text is not
// read; 4294967294 and the u32 offset of the assertion if a frame has over 4,095 variables. Diagnostics are measured only.
// The work area is not cleared in between. `make.py` wrote the texts, and `stdout`; `tools/many-variables` runs the longest.
#![tactic(auto)]

ghost use Rattle.std.specs.Prelude.{◌≡◌, ◌<◌, ◌≤◌, length};
ghost use Rattle.fold.specs.Start.{Read};
ghost use Rattle.frames_vectors.specs.Framed.{Framed};

use fold::all::{Streams, fold_all};
use fold::start::start;
use paper::{Setting, StatementOffset};

// What stands in place of a length: the text is not read, or a frame has too many variables.
const NOT_READ: u32 = 4294967295;

const CROWDED: u32 = 4294967294;

// Both streams of a text that is read.
fn frame_read(
    text: &[u8],
    work: &mut [u32],
    frames: &mut [u8],
    diags: &mut [u8],
    rows: usize,
) -> Result<Streams, StatementOffset>
    requires { Read text.now work.old rows }
    ensures { Framed text.now work.old rows frames.old frames.new diags.old diags.new result }
{
    let s = start(text, work, rows);
    fold_all(text, work, s.n, frames, diags, rows, s.names, Setting::Full)
}

fn write_number(x: u32) {
    io::write_all(1, &x.to_le_bytes());
}

fn write_stream(frames: &[u8], used: usize) {
    write_number((used % 4294967296) as u32);
    if let Some(stream) = frames.get(..used) {
        io::write_all(1, stream);
    }
}

fn write_answer(frames: &[u8], folded: Result<Streams, StatementOffset>) {
    match folded {
        Ok(streams) => write_stream(frames, streams.frames),
        Err(at) => {
            write_number(CROWDED);
            write_number(at.0);
        }
    }
}

// The frames of any text.
fn run_text(text: &[u8], work: &mut [u32], frames: &mut [u8], diags: &mut [u8]) {
    match reader::read(text, work) {
        Ok(statements) => {
            let folded = frame_read(text, work, frames, diags, statements.rows);
            write_answer(frames, folded);
        }
        Err(_) => write_number(NOT_READ),
    }
}

// The words that a text needs, if there are so many.
fn words_for(text: &[u8], most: usize) -> usize
    ensures { result ≤ most }
{
    let rows = token::count::count(text).tokens.saturating_add(1);
    rows.saturating_mul(16).min(most)
}

// Runs the first text and answers those after it: none, if it is cut short.
fn run_case<'a>(cases: &'a [u8], work: &mut [u32], frames: &mut [u8], diags: &mut [u8]) -> &'a [u8]
    requires { 0 < length cases.now }
    ensures { length result.now < length cases.now }
{
    let Some((size, rest)) = cases.split_first_chunk::<4>() else {
        return &[];
    };
    let Some((text, rest)) = rest.split_at_checked(u32::from_le_bytes(*size) as usize) else {
        return &[];
    };
    let words = words_for(text, work.len());
    run_text(text, &mut work[..words], frames, diags);
    rest
}

fn run(cases: &[u8], work: &mut [u32], frames: &mut [u8], diags: &mut [u8]) {
    let mut left = cases;
    while !left.is_empty() {
        left = run_case(left, work, frames, diags);
    }
}

// Room of any length.
fn buffer<const N: usize>() -> [u8; N]
    ensures { N ≡ length result }
{
    [0; N]
}

// The same over a work area of the length that the program lends.
fn run_over(cases: &[u8], work: &mut [u32; 524288], frames: &mut [u8], diags: &mut [u8]) {
    run(cases, work, frames, diags);
}

// Room for the input, for the words of 32,767 tokens, and for a frame of 4,095 variables.
fn main() {
    let mut input = buffer::<262144>();
    let n = io::read_full(0, &mut input);
    let mut work = [7u32; 524288];
    let mut frames = buffer::<2621440>();
    let mut diags = [0u8; 1];
    run_over(&input[..n], &mut work, &mut frames, &mut diags);
}
