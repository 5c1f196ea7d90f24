// Runs reader, names and checks over recorded texts and writes their diagnostics streams. Standard input has the texts one after
// the other: u16 length, and the bytes. For each the stream is written as u16 length and bytes, or 65535 if the text is
// refused. The work area is not cleared in between. `make.py` wrote them, and `stdout`.
#![tactic(auto)]

ghost use Rattle.std.specs.Prelude.{◌<◌, length};
ghost use Rattle.fold.specs.Start.{Read};
ghost use Rattle.checks_vectors.specs.Diagnosed.{Diagnosed};

use fold::start::start;
use scopeck::statements::scope_check_all;

// What stands in place of a length: the text is refused.
const NOT_READ: u16 = 65535;

// The diagnostics of a text that is read, after naming.
fn diagnose_read(text: &[u8], work: &mut [u32], diags: &mut [u8], rows: usize) -> usize
    requires { Read text.now work.old rows }
    ensures { Diagnosed text.now work.old rows diags.old diags.new result }
{
    let at = start(text, work, rows);
    scope_check_all(text, work, at.n, diags, rows, at.names).diags
}

// The length of the diagnostics of any text, if it is read.
fn diagnose(text: &[u8], work: &mut [u32], diags: &mut [u8]) -> Option<usize> {
    let statements = reader::read(text, work).ok()?;
    Some(diagnose_read(text, work, diags, statements.rows))
}

fn write_number(x: u16) {
    io::write_all(1, &x.to_le_bytes());
}

fn write_stream(diags: &[u8], used: usize) {
    write_number((used % 65536) as u16);
    if let Some(stream) = diags.get(..used) {
        io::write_all(1, stream);
    }
}

// Runs the first text and answers those after it: none, if it is cut short.
fn run_case<'a>(cases: &'a [u8], work: &mut [u32], diags: &mut [u8]) -> &'a [u8]
    requires { 0 < length cases.now }
    ensures { length result.now < length cases.now }
{
    let Some((size, rest)) = cases.split_first_chunk::<2>() else {
        return &[];
    };
    let Some((text, rest)) = rest.split_at_checked(usize::from(u16::from_le_bytes(*size))) else {
        return &[];
    };
    match diagnose(text, work, diags) {
        Some(used) => write_stream(diags, used),
        None => write_number(NOT_READ),
    }
    rest
}

fn run(cases: &[u8], work: &mut [u32], diags: &mut [u8]) {
    let mut left = cases;
    while !left.is_empty() {
        left = run_case(left, work, diags);
    }
}

fn main() {
    let mut input = io::large_buffer();
    let n = io::read_full(0, &mut input);
    let mut work = [7u32; 65536];
    let mut diags = [0u8; 16384];
    run(&input[..n], &mut work, &mut diags);
}
