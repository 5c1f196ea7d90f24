// Ends of statements: a walk from the last item back to the first, with the `$}` met and not matched yet as a stack.
// An item's word is 0 for a statement, 1 for `${`, offset + 2 for `$}`; the stack stands in the symbol columns.
ghost use Rattle.std.specs.Prelude.{◌≡◌, ◌*◌, ◌≤◌, ◌<◌, length};
ghost use Rattle.paper.specs.Statements.{top};
ghost use Rattle.area.specs.Cells.{bucket_cell, word};
ghost use Rattle.reader.specs.Ends.{stack_of, back_words, back_state, BackRoom, EndsRoom, Ended};

use area::{END, NO_END, bucket, statement};

/// The first row whose end is found, and the depth of the stack.
#[derive(Clone, Copy)]
pub struct Back {
    pub row: usize,
    pub depth: usize,
}

/// The end of what stands in the group on top of the stack.
pub fn top_end(work: &[u32], n: usize, depth: usize) -> u32
    requires { (16 * n ≤ length work.now) × (n ≤ 16777217) × (depth < n) }
    ensures { result ≡ top (stack_of work.now n depth) }
{
    if depth == 0 {
        return NO_END;
    }
    work[8 * n + (depth - 1)]
}

/// One item back.
pub fn step_back(work: &mut [u32], n: usize, item: usize, b: Back) -> Back
    requires { BackRoom work.old n item b.row b.depth }
    ensures { (work.new ≡ back_words work.old n (word work.old (bucket_cell n item)) b.row b.depth) × (result ≡ back_state (word work.old (bucket_cell n item)) b.row b.depth) }
{
    match work[bucket(n, item)] {
        0 => {
            let row = b.row - 1;
            work[statement(row, END)] = top_end(work, n, b.depth);
            Back { row, ..b }
        }
        1 => Back {
            depth: b.depth.saturating_sub(1),
            ..b
        },
        e => {
            work[8 * n + b.depth] = e - 2;
            Back {
                depth: b.depth + 1,
                ..b
            }
        }
    }
}

/// Puts the end of each of the first `rows` statements into its row.
pub fn set_ends(work: &mut [u32], n: usize, rows: usize, items: usize)
    requires { EndsRoom work.old n rows items }
    ensures { Ended work.old work.new n rows items }
{
    let mut b = Back {
        row: rows,
        depth: 0,
    };
    for j in (0..items).rev() {
        b = step_back(work, n, j, b);
    }
}
