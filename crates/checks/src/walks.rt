// The walks over the math tokens of a statement, one for each kind of check.
// Each goes over the tokens of the statement's part of the text, and takes the atom of a token from the math column.
ghost use Rattle.std.specs.Prelude.{◌≡◌, true, ◌+◌, ◌≤◌, length};
ghost use Rattle.slots.specs.Kept.{Room};
ghost use Rattle.slots.specs.Marks.{Atoms};
ghost use Rattle.checks.specs.Visible.{visible_from, Calm};
ghost use Rattle.checks.specs.Walks.{Walk, HasFloats, AllGood, WalkEap, WalkDv, CheckedDv, LastTwo, WalkPart, WalkOuter, WalkNested};

use crate::part::MathTokens;
use crate::tokens::{check_dv_token, check_eap_token, check_nested, check_outer, is_good};
use crate::{FloatTokens, Spot};
use paper::{Atom, StatementOffset, TokenIndex, TokenOffset};
use slots::cells::of_math;
use slots::mark::forget_dv;

/// Whether no one of `count` tokens of a `$e`, `$a` or `$p` gets a diagnostic.
pub fn all_good(work: &[u32], n: usize, first: usize, count: usize, s: StatementOffset) -> bool
    requires { Room work.now n × Atoms work.now n first count × HasFloats work.now n first count }
    ensures { result ≡ true → AllGood work.now n first count s.0 }
{
    for i in 0..count {
        let atom = Atom(of_math(work, n, first + i));
        if !is_good(work, n, atom, Spot::new(s, TokenIndex(i as u32))) {
            return false;
        }
    }
    true
}

/// The `count` tokens of a `$e`, `$a` or `$p`, whose math string is `part`; it is gone over only if one gets a diagnostic.
pub fn check_eap(
    part: &[u8],
    work: &[u32],
    n: usize,
    diags: &mut [u8],
    at: usize,
    first: usize,
    count: usize,
    s: StatementOffset,
) -> usize
    requires { Walk work.now n at first count × HasFloats work.now n first count × (length (visible_from part.now 0) ≡ count) × Calm part.now }
    ensures { WalkEap work.now diags.old diags.new n at result first count s.0 }
{
    if all_good(work, n, first, count, s) {
        return at;
    }
    walk_eap(part, work, n, diags, at, first, s)
}

/// The tokens of a `$e`, `$a` or `$p`, whose math string is `part`.
pub fn walk_eap(
    part: &[u8],
    work: &[u32],
    n: usize,
    diags: &mut [u8],
    at: usize,
    first: usize,
    s: StatementOffset,
) -> usize
    requires { Walk work.now n at first (length (visible_from part.now 0)) × HasFloats work.now n first (length (visible_from part.now 0)) × Calm part.now }
    ensures { WalkEap work.now diags.old diags.new n at result first (length (visible_from part.now 0)) s.0 }
{
    let mut p = at;
    for x in MathTokens::of(part) {
        let atom = Atom(of_math(work, n, first + x.index));
        p = check_eap_token(
            work,
            n,
            diags,
            p,
            atom,
            Spot::new(s, TokenIndex(x.index as u32)),
        );
    }
    p
}

/// The tokens of a `$d`, whose math string is `part`; each may get a mark.
pub fn walk_dv(
    part: &[u8],
    work: &mut [u32],
    n: usize,
    diags: &mut [u8],
    at: usize,
    first: usize,
    s: StatementOffset,
) -> usize
    requires { Walk work.old n at first (length (visible_from part.now 0)) × Calm part.now }
    ensures { WalkDv work.old work.new diags.old diags.new n at result first (length (visible_from part.now 0)) s.0 }
{
    let mut p = at;
    for x in MathTokens::of(part) {
        let atom = Atom(of_math(work, n, first + x.index));
        p = check_dv_token(
            work,
            n,
            diags,
            p,
            atom,
            Spot::new(s, TokenIndex(x.index as u32)),
        );
    }
    p
}

/// The `count` tokens of a `$d`, whose math string is `part`; no mark is left.
pub fn check_dv(
    part: &[u8],
    work: &mut [u32],
    n: usize,
    diags: &mut [u8],
    at: usize,
    first: usize,
    count: usize,
    s: StatementOffset,
) -> usize
    requires { Walk work.old n at first count × (length (visible_from part.now 0) ≡ count) × Calm part.now }
    ensures { CheckedDv work.old work.new diags.old diags.new n at result first count s.0 }
{
    let p = walk_dv(part, work, n, diags, at, first, s);
    forget_dv(work, n, first, count);
    p
}

/// The atoms of the last two tokens of `part`, the math string of a `$f`, which has just two.
pub fn float_tokens(part: &[u8], work: &[u32], n: usize, first: usize) -> FloatTokens
    requires { Room work.now n × (first + length (visible_from part.now 0) ≤ n) × Calm part.now }
    ensures { LastTwo work.now n first (length (visible_from part.now 0)) result.typecode.0 result.variable.0 }
{
    let mut typecode = Atom(0);
    let mut variable = Atom(0);
    for x in MathTokens::of(part) {
        typecode = variable;
        variable = Atom(of_math(work, n, first + x.index));
    }
    FloatTokens { typecode, variable }
}

/// The tokens of an outermost `$c` or `$v`, whose math string is `part`.
pub fn walk_outer(
    part: &[u8],
    work: &[u32],
    n: usize,
    diags: &mut [u8],
    at: usize,
    first: usize,
    from: u32,
    s: StatementOffset,
) -> usize
    requires { WalkPart work.now part.now n at first from }
    ensures { WalkOuter work.now part.now diags.old diags.new n at result first from s.0 }
{
    let mut p = at;
    for x in MathTokens::of(part) {
        let atom = Atom(of_math(work, n, first + x.index));
        let offset = TokenOffset(from + x.start as u32);
        p = check_outer(
            work,
            n,
            diags,
            p,
            atom,
            offset,
            Spot::new(s, TokenIndex(x.index as u32)),
        );
    }
    p
}

/// The tokens of a nested `$v` with this end, whose math string is `part`.
pub fn walk_nested(
    part: &[u8],
    work: &mut [u32],
    n: usize,
    diags: &mut [u8],
    at: usize,
    first: usize,
    from: u32,
    end: u32,
    s: StatementOffset,
) -> usize
    requires { WalkPart work.old part.now n at first from }
    ensures { WalkNested work.old work.new part.now diags.old diags.new n at result first from end s.0 }
{
    let mut p = at;
    for x in MathTokens::of(part) {
        let atom = Atom(of_math(work, n, first + x.index));
        let offset = TokenOffset(from + x.start as u32);
        let spot = Spot::new(s, TokenIndex(x.index as u32));
        p = check_nested(work, n, diags, p, atom, offset, end, spot);
    }
    p
}
