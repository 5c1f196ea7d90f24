// Whether an entry is a substituted statement: its math tokens and the entry are gone along together.
// The symbols for a variable are compared where they lie; tokens are a part of the math column, after the typecode.
ghost use Rattle.std.specs.Prelude.{◌≡◌, [], ◌∷◌, ◌+◌, ◌<◌, length, drop};
ghost use Rattle.slots.specs.Kept.{Room};
ghost use Rattle.unify.specs.Entries.{plain, agrees, AtomsBelow};
ghost use Rattle.unify.specs.Bound.{token_words, spread, is_entry};
ghost use Rattle.unify.specs.Matches.{Matches};

use crate::bind::{is_constant, start_of};
use crate::entry::FLAG;
use paper::Atom;

/// The symbols from `s` on, up to the next entry, against the words from `p` on: the place after those that agree.
pub fn match_part(stack: &[u32], s: usize, p: usize) -> Option<usize>
    ensures { Matches (plain (drop s stack.now)) stack.now p result }
{
    let mut q = p;
    for i in s..stack.len() {
        if FLAG <= stack[i] {
            return Some(q);
        }
        q = match_word(stack, stack[i], q)?;
    }
    Some(q)
}

/// A constant against the word at `p`: the place after it, if they agree.
pub fn match_word(stack: &[u32], x: u32, p: usize) -> Option<usize>
    ensures { Matches (x ∷ []) stack.now p result }
{
    if x != *stack.get(p)? {
        return None;
    }
    Some(p + 1)
}

/// What a token stands for against the words from `p` on.
pub fn match_token(work: &[u32], n: usize, atom: Atom, stack: &[u32], p: usize) -> Option<usize>
    requires { Room work.now n × (atom.0 < n) }
    ensures { Matches (token_words work.now n stack.now atom.0) stack.now p result }
{
    if is_constant(work, n, atom) {
        return match_word(stack, atom.0, p);
    }
    let s = start_of(work, n, atom);
    match_part(stack, s, p)
}

/// What some tokens stand for against the words from `p` on.
pub fn match_tokens(
    work: &[u32],
    n: usize,
    tokens: &[u32],
    stack: &[u32],
    p: usize,
) -> Option<usize>
    requires { Room work.now n × AtomsBelow tokens.now n }
    ensures { Matches (spread work.now n stack.now tokens.now) stack.now p result }
{
    let mut q = p;
    for &t in tokens {
        q = match_token(work, n, Atom(t), stack, q)?;
    }
    Some(q)
}

/// Whether an entry stops at `p`.
pub fn stops_at(stack: &[u32], p: usize) -> bool
    ensures { result ≡ agrees [] (drop p stack.now) }
{
    stack.get(p).is_none_or(|&x| FLAG <= x)
}

/// Whether the entry at `at` has this typecode and what the tokens stand for.
pub fn matches(
    work: &[u32],
    n: usize,
    typecode: Atom,
    tokens: &[u32],
    stack: &[u32],
    at: usize,
) -> bool
    requires { Room work.now n × (typecode.0 < n) × AtomsBelow tokens.now n × (at < length stack.now) }
    ensures { result ≡ is_entry work.now n typecode.0 tokens.now stack.now at }
{
    stack[at] == typecode.0 + FLAG
        && match_tokens(work, n, tokens, stack, at + 1).is_some_and(|q| stops_at(stack, q))
}
