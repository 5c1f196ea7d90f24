// From a text that is read to what the fold starts from: the names are numbered, and the constants among them marked.
// Once for both passes.
ghost use Rattle.fold.specs.Start.{Read, Starts};

use nameck::naming::name_all;
use sight::mark_constants;
use token::count::count;

/// N + 1 and the number of names.
#[derive(Clone, Copy)]
pub struct Started {
    pub n: usize,
    pub names: usize,
}

/// Names the statements of all rows.
pub fn start(text: &[u8], work: &mut [u32], rows: usize) -> Started
    requires { Read text.now work.old rows }
    ensures { Starts text.now work.old work.new rows result }
{
    let n = count(text).tokens + 1;
    let names = name_all(text, work, n, rows);
    mark_constants(work, n, names);
    Started { n, names }
}
