// Entries written above the top of the stack: a statement as it stands, or substituted.
// It is asked whether there is room before words are written, and against what is left of the stack, so nothing can wrap.
ghost use Rattle.std.specs.Prelude.{[], ◌∷◌, ◌+◌, ◌<◌, ◌≤◌, length, take, drop};
ghost use Rattle.slots.specs.Kept.{Room};
ghost use Rattle.unify.specs.Entries.{plain, entry_of, AtomsBelow};
ghost use Rattle.unify.specs.Bound.{token_words, spread};
ghost use Rattle.unify.specs.Pushes.{Pushes};

use crate::bind::{is_constant, start_of};
use crate::entry::FLAG;
use paper::Atom;

/// Stores one word at `p`: the place after it, if there is room.
pub fn put_word(stack: &mut [u32], p: usize, x: u32) -> Option<usize>
    requires { p ≤ length stack.old }
    ensures { Pushes stack.old stack.new p result (x ∷ []) }
{
    if stack.len() <= p {
        return None;
    }
    stack[p] = x;
    Some(p + 1)
}

/// Copies the symbols from `s` on, up to the next entry or to `top`, to `p`.
pub fn copy_part(stack: &mut [u32], top: usize, s: usize, p: usize) -> Option<usize>
    requires { (top ≤ p) × (p ≤ length stack.old) }
    ensures { Pushes stack.old stack.new p result (plain (drop s (take top stack.old))) }
{
    let mut q = p;
    for i in s..top {
        let x = stack[i];
        if FLAG <= x {
            return Some(q);
        }
        q = put_word(stack, q, x)?;
    }
    Some(q)
}

/// Writes what a token stands for, by the entries below `top`, to `p`.
pub fn expand_token(
    work: &[u32],
    n: usize,
    atom: Atom,
    stack: &mut [u32],
    top: usize,
    p: usize,
) -> Option<usize>
    requires { Room work.now n × (atom.0 < n) × (top ≤ p) × (p ≤ length stack.old) }
    ensures { Pushes stack.old stack.new p result (token_words work.now n (take top stack.old) atom.0) }
{
    if is_constant(work, n, atom) {
        return put_word(stack, p, atom.0);
    }
    let s = start_of(work, n, atom);
    copy_part(stack, top, s, p)
}

/// Writes what some tokens stand for, by the entries below `top`, to `p`.
pub fn expand_tokens(
    work: &[u32],
    n: usize,
    tokens: &[u32],
    stack: &mut [u32],
    top: usize,
    p: usize,
) -> Option<usize>
    requires { Room work.now n × AtomsBelow tokens.now n × (top ≤ p) × (p ≤ length stack.old) }
    ensures { Pushes stack.old stack.new p result (spread work.now n (take top stack.old) tokens.now) }
{
    let mut q = p;
    for &t in tokens {
        q = expand_token(work, n, Atom(t), stack, top, q)?;
    }
    Some(q)
}

/// Pushes an entry above the entries below `top`: this typecode and what the tokens stand for.
pub fn expand(
    work: &[u32],
    n: usize,
    typecode: Atom,
    tokens: &[u32],
    stack: &mut [u32],
    top: usize,
) -> Option<usize>
    requires { Room work.now n × (typecode.0 < n) × AtomsBelow tokens.now n × (top ≤ length stack.old) }
    ensures { Pushes stack.old stack.new top result (entry_of typecode.0 (spread work.now n (take top stack.old) tokens.now)) }
{
    let p = put_word(stack, top, typecode.0 + FLAG)?;
    expand_tokens(work, n, tokens, stack, top, p)
}

/// Writes some tokens as they stand to `p`.
pub fn put_tokens(tokens: &[u32], stack: &mut [u32], p: usize) -> Option<usize>
    requires { p ≤ length stack.old }
    ensures { Pushes stack.old stack.new p result tokens.now }
{
    if stack.len() - p < tokens.len() {
        return None;
    }
    let q = p + tokens.len();
    stack[p..q].copy_from_slice(tokens);
    Some(q)
}

/// Pushes an entry above the entries below `top`: this typecode and the tokens as they stand.
pub fn push_row(typecode: Atom, tokens: &[u32], stack: &mut [u32], top: usize) -> Option<usize>
    requires { (typecode.0 < 16777217) × (top ≤ length stack.old) }
    ensures { Pushes stack.old stack.new top result (entry_of typecode.0 tokens.now) }
{
    let p = put_word(stack, top, typecode.0 + FLAG)?;
    put_tokens(tokens, stack, p)
}
