// The substitution in words: where the symbols of a variable's entry start, in two words of the variable.
// A place on a lent stack may pass 2^32; no entry's symbols start at 0, so 0 is for a variable that is not bound.
ghost use Rattle.std.specs.Prelude.{◌≡◌, ◌+◌, ◌<◌, eqb, length, get_or};
ghost use Rattle.paper.specs.Base.{choose};
ghost use Rattle.slots.specs.Kept.{Room};
ghost use Rattle.unify.specs.Entries.{flag};
ghost use Rattle.unify.specs.Bound.{start_of, with_start, constant_word};

use crate::entry::FLAG;
use paper::Atom;
use slots::cells::{of_symbol, put_symbol};

/// Where the symbols for a variable start; 0 if it is not bound.
pub fn start_of(work: &[u32], n: usize, atom: Atom) -> usize
    requires { Room work.now n × (atom.0 < n) }
    ensures { result ≡ start_of work.now n atom.0 }
{
    let low = of_symbol(work, n, atom.0 as usize, area::NESTED_END) as usize;
    let high = of_symbol(work, n, atom.0 as usize, area::NUMBER) as usize;
    low + 4294967296 * high
}

/// Stores where the symbols for a variable start.
pub fn put_start(work: &mut [u32], n: usize, atom: Atom, start: usize)
    requires { Room work.old n × (atom.0 < n) }
    ensures { work.new ≡ with_start work.old n atom.0 start }
{
    put_symbol(
        work,
        n,
        atom.0 as usize,
        area::NESTED_END,
        (start % 4294967296) as u32,
    );
    put_symbol(
        work,
        n,
        atom.0 as usize,
        area::NUMBER,
        (start / 4294967296) as u32,
    );
}

/// Whether a name is a constant, by its global declaration.
pub fn is_constant(work: &[u32], n: usize, atom: Atom) -> bool
    requires { Room work.now n × (atom.0 < n) }
    ensures { result ≡ constant_word work.now n atom.0 }
{
    of_symbol(work, n, atom.0 as usize, area::GLOBAL) % 2 == 1
}

/// The entry at `at` for a `$f` with this typecode and variable: whether the typecodes are equal, and then the variable is bound.
pub fn bind(
    work: &mut [u32],
    n: usize,
    stack: &[u32],
    at: usize,
    typecode: Atom,
    variable: Atom,
) -> bool
    requires { Room work.old n × (typecode.0 < n) × (variable.0 < n) × (at < length stack.now) }
    ensures { (result ≡ eqb (get_or stack.now at 0) (typecode.0 + flag)) × (work.new ≡ choose (eqb (get_or stack.now at 0) (typecode.0 + flag)) (with_start work.old n variable.0 (at + 1)) work.old) }
{
    if stack[at] != typecode.0 + FLAG {
        return false;
    }
    put_start(work, n, variable, at + 1);
    true
}
