// What is known of a name by its atom: who owns it as a label, and its global declaration.
// The answers have numbers only.
ghost use Rattle.nameck.specs.Lookups.{HasSymbol, Owned, DeclaredBy};

use paper::{Atom, StatementOffset, TokenOffset};

/// A global declaration: a `$c` or a `$v` token with this offset.
#[derive(Clone, Copy)]
pub enum Global {
    Constant(TokenOffset),
    Variable(TokenOffset),
}

/// The owner of an atom as a label: the offset of its first bearer.
pub fn lookup_label(work: &[u32], n: usize, atom: Atom) -> Option<StatementOffset>
    requires { HasSymbol work.now n atom.0 }
    ensures { Owned work.now n atom.0 result }
{
    let o = work[area::symbol(n, atom.0 as usize, area::OWNER)].checked_sub(1)?;
    Some(StatementOffset(o))
}

/// The global declaration of an atom, wherever it stands.
pub fn lookup_symbol(work: &[u32], n: usize, atom: Atom) -> Option<Global>
    requires { HasSymbol work.now n atom.0 }
    ensures { DeclaredBy work.now n atom.0 result }
{
    let g = work[area::symbol(n, atom.0 as usize, area::GLOBAL)];
    if g == 0 {
        return None;
    }
    if g % 2 == 1 {
        Some(Global::Constant(TokenOffset(g / 2)))
    } else {
        Some(Global::Variable(TokenOffset(g / 2 - 1)))
    }
}
