// Runs the reader over recorded texts and writes what it finds: number, place and line, or statements and math tokens, then every word
// of the work area that is not 0. The file `cases` of `data/` has them one after the other: u16 length of the text, u16 words of the
// work area, and the text; what a case leaves in the work area is there when the next begins. `make.py` wrote it, and `stdout`.
#![tactic(auto)]

ghost use Rattle.std.specs.Prelude.{◌<◌, length};

use paper::{Refused, Statements};
use std::fs::File;
use std::os::fd::AsRawFd;

fn write_two(a: u64, b: u64) {
    io::print_decimal(1, a);
    io::write_all(1, b" ");
    io::print_decimal(1, b);
}

fn write_word(cell: usize, word: u32) {
    if word != 0 {
        io::write_all(1, b" ");
        io::print_decimal(1, cell as u64);
        io::write_all(1, b":");
        io::print_decimal(1, word as u64);
    }
}

fn write_words(work: &[u32]) {
    for (i, &word) in work.iter().enumerate() {
        write_word(i, word);
    }
    io::write_all(1, b"\n");
}

fn read_over_zeros(text: &[u8], work: &mut [u32]) {
    work.fill(0);
    let _ = reader::read(text, work);
}

// A text that is read is read again over zeros, so that no word is written but those that the reader leaves.
fn write_answer(text: &[u8], work: &mut [u32], r: Result<Statements, Refused>) {
    match r {
        Ok(s) => {
            io::write_all(1, b"read ");
            write_two(s.rows as u64, s.maths as u64);
            read_over_zeros(text, work);
        }
        Err(r) => {
            write_two(u64::from(r.refusal.number()), r.refusal.place());
            io::write_all(1, b" ");
            io::print_decimal(1, r.line);
        }
    }
}

fn read_one(text: &[u8], work: &mut [u32]) {
    let r = reader::read(text, work);
    write_answer(text, work, r);
    write_words(work);
}

// Runs the first case and answers those after it: none, if it is cut short or asks for more words than there are.
fn run_case<'a>(cases: &'a [u8], work: &mut [u32]) -> &'a [u8]
    requires { 0 < length cases.now }
    ensures { length result.now < length cases.now }
{
    let Some((size, rest)) = cases.split_first_chunk::<2>() else {
        return &[];
    };
    let Some((words, rest)) = rest.split_first_chunk::<2>() else {
        return &[];
    };
    let Some((text, rest)) = rest.split_at_checked(usize::from(u16::from_le_bytes(*size))) else {
        return &[];
    };
    let Some(part) = work.get_mut(..usize::from(u16::from_le_bytes(*words))) else {
        return &[];
    };
    read_one(text, part);
    rest
}

fn run(cases: &[u8], work: &mut [u32]) {
    let mut left = cases;
    while !left.is_empty() {
        left = run_case(left, work);
    }
}

fn main(rt: HostRuntime) {
    let mut input = io::large_buffer();
    let n = match File::open(&rt, "cases") {
        Ok(file) => io::read_full(file.as_raw_fd(), &mut input),
        Err(_) => 0,
    };
    let mut work = [7u32; 65536];
    run(&input[..n], &mut work);
}
