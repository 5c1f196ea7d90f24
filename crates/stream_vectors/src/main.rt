// Runs look-up over recorded frame streams, whole ones and damaged copies, and writes number and place of each answer.
// Standard input has the cases one after the other: u16 length of the stream, u16 length of the label, and their bytes.
// `make.py` wrote them, and `stdout`, the answers of the paper's model.
#![tactic(auto)]

ghost use Rattle.std.specs.Prelude.{◌<◌, length};

use paper::Found;
use paper::told::{found_number, found_place};
use stream::walk::lookup;

fn write_answer(found: Found) {
    io::print_decimal(1, u64::from(found_number(found)));
    io::write_all(1, b" ");
    io::print_decimal(1, found_place(found));
    io::write_all(1, b"\n");
}

// Runs the first case and answers those after it: none, if it is cut short.
fn run_case(cases: &[u8]) -> &[u8]
    requires { 0 < length cases.now }
    ensures { length result.now < length cases.now }
{
    let Some((stream_size, rest)) = cases.split_first_chunk::<2>() else {
        return &[];
    };
    let Some((label_size, rest)) = rest.split_first_chunk::<2>() else {
        return &[];
    };
    let Some((stream, rest)) = rest.split_at_checked(usize::from(u16::from_le_bytes(*stream_size)))
    else {
        return &[];
    };
    let Some((label, rest)) = rest.split_at_checked(usize::from(u16::from_le_bytes(*label_size)))
    else {
        return &[];
    };
    write_answer(lookup(stream, label));
    rest
}

fn run(cases: &[u8]) {
    let mut left = cases;
    while !left.is_empty() {
        left = run_case(left);
    }
}

fn main() {
    let mut input = io::large_buffer();
    let n = io::read_full(0, &mut input);
    run(&input[..n]);
}
