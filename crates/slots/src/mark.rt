// The marks of the `$d` in hand, by which a repeat is found, and their removal.
// A name's mark is 1 + the index of its first token; 0 between statements.
ghost use Rattle.std.specs.Prelude.{◌≡◌, ◌+◌, ◌<◌};
ghost use Rattle.slots.specs.Kept.{Room};
ghost use Rattle.slots.specs.Marks.{mark_slot, marked_by, Atoms, Forgot};

use crate::cells::{of_math, of_symbol, put_symbol};
use paper::{Atom, TokenIndex};

/// The index of the first token of a name; the name is marked if this is its first.
pub fn see(work: &mut [u32], n: usize, atom: Atom, i: TokenIndex) -> Option<TokenIndex>
    requires { Room work.old n × (atom.0 < n) × (i.0 < 16777217) }
    ensures { (result ≡ mark_slot work.old n atom.0) × (work.new ≡ marked_by (mark_slot work.old n atom.0) work.old n atom.0 i.0) }
{
    let k = of_symbol(work, n, atom.0 as usize, area::MARK);
    if k == 0 {
        put_symbol(work, n, atom.0 as usize, area::MARK, i.0 + 1);
        return None;
    }
    Some(TokenIndex(k - 1))
}

/// Takes the marks of the math tokens in `count` rows away.
pub fn forget_dv(work: &mut [u32], n: usize, first: usize, count: usize)
    requires { Room work.old n × Atoms work.old n first count }
    ensures { Forgot work.old work.new n first count }
{
    for row in first..first + count {
        let a = of_math(work, n, row) as usize;
        put_symbol(work, n, a, area::MARK, 0);
    }
}
