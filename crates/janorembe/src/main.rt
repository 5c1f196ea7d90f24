// The program: a text of up to 8,192 bytes and 1,023 tokens on standard input. It writes the frames, with mandatory variables
// only, then the diagnostics, to standard output, or nothing if the text is refused or longer.
#![tactic(auto)]

use paper::Setting;

const MOST_BYTES: usize = 8192;
// For 1,023 tokens: one more is number 2.
const WORDS: usize = 16384;
// The frames of every such text fit. Say that A assertions are framed: each takes 4 tokens and 10 bytes of the text. One frame has at most
// - each byte outside the other assertions once: A * (8,192 - 10 * (A - 1)) in all frames, under 1,450,000;
// - 10 bytes of counts and places for each token outside the other assertions: A * 10 * (1,023 - 4 * (A - 1)), under 660,000;
// - 46 bytes more: under 12,000;
// - 2 M (M - 1) bytes for the pairs of M variables and V (V + 7) / 8 for the rows. A variable of a pair takes 8 tokens, in `$v`,
//   `$f`, `$d` and an expression, and any other at least 2, so 8 M + 2 (V - M) <= 1,023 - 4 A: under 1,350,000, at A = M = V = 85.
// The records of `$f` come to under 14,000, and all together to under 3,500,000.
const FRAMES: usize = 4194304;
// So do the diagnostics: a statement has at most two, of 18 bytes each, for each of its math tokens.
const DIAGS: usize = 36864;

// Writes both streams of a text into buffers of just their lengths, and then out.
fn write_both(text: &[u8], work: &mut [u32], frames: &mut [u8], diags: &mut [u8]) {
    if catalogue::write(text, work, frames, diags, Setting::Short).is_ok() {
        io::write_all(1, frames);
        io::write_all(1, diags);
    }
}

// Measures a text and lends just as much of the buffers.
fn run(text: &[u8], work: &mut [u32], frames: &mut [u8], diags: &mut [u8]) {
    let Ok(needs) = catalogue::measure(text, work, Setting::Short) else {
        return;
    };
    let Some(f) = frames.get_mut(..needs.frames as usize) else {
        return;
    };
    let Some(d) = diags.get_mut(..needs.diags as usize) else {
        return;
    };
    write_both(text, work, f, d);
}

// The same over arrays of the lengths that the program lends.
fn run_over(
    text: &[u8],
    work: &mut [u32; WORDS],
    frames: &mut [u8; FRAMES],
    diags: &mut [u8; DIAGS],
) {
    run(text, work, frames, diags);
}

fn main() {
    let mut input = io::large_buffer();
    let n = io::read_full(0, &mut input);
    if n <= MOST_BYTES {
        let mut work = [0u32; WORDS];
        let mut frames = [0u8; FRAMES];
        let mut diags = [0u8; DIAGS];
        run_over(&input[..n], &mut work, &mut frames, &mut diags);
    }
}
