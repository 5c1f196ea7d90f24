// The check of one token, by its atom: look-ups, the diagnostics that they call for, and what is recorded.
// `spot` is the statement and the token, `s` a statement's offset; each function answers the place after its diagnostics.
ghost use Rattle.std.specs.Prelude.{◌≡◌, true, ◌<◌};
ghost use Rattle.slots.specs.Kept.{Room};
ghost use Rattle.slots.specs.Slots.{nested_slot};
ghost use Rattle.checks.specs.Found.{against_known};
ghost use Rattle.checks.specs.Tokens.{Can, HasFloat, Clashes, Outer, Judged, NestedToken, EapToken, Good, DvToken, earlier_slot, Float, Label};

use crate::put::{
    put_breach, put_dv, put_found, put_label, put_redeclared, put_symbol, put_typecode,
    put_variable,
};
use crate::{Breach, FloatTokens, Spot};
use nameck::lookup::{Global, lookup_label, lookup_symbol};
use paper::{Atom, StatementOffset, TokenIndex, TokenOffset};
use slots::CheckedToken;
use slots::cells::of_statement;
use slots::look::{check_math_symbol, lookup_float, nested_of, record_nested};
use slots::mark::see;

/// Kind 1: a label that another statement owns.
pub fn check_label(
    work: &[u32],
    n: usize,
    diags: &mut [u8],
    at: usize,
    label: Atom,
    s: StatementOffset,
) -> usize
    requires { Can work.now n at label.0 }
    ensures { Label work.now diags.old diags.new n at result label.0 s.0 }
{
    let owner = lookup_label(work, n, label);
    put_label(diags, at, owner, s)
}

/// Kind 5: a declared symbol that is also a label.
pub fn check_clash(
    work: &[u32],
    n: usize,
    diags: &mut [u8],
    at: usize,
    atom: Atom,
    spot: Spot,
) -> usize
    requires { Can work.now n at atom.0 }
    ensures { Clashes work.now diags.old diags.new n at result atom.0 spot.statement.0 spot.index.0 }
{
    let owner = lookup_label(work, n, atom);
    put_found(diags, at, Breach::SymbolDuplicatesLabel, owner, spot)
}

/// A token of an outermost `$c` or `$v`: kind 5, then kind 6.
pub fn check_outer(
    work: &[u32],
    n: usize,
    diags: &mut [u8],
    at: usize,
    atom: Atom,
    offset: TokenOffset,
    spot: Spot,
) -> usize
    requires { Can work.now n at atom.0 }
    ensures { Outer work.now diags.old diags.new n at result atom.0 offset.0 spot.statement.0 spot.index.0 }
{
    let after = check_clash(work, n, diags, at, atom, spot);
    let g = lookup_symbol(work, n, atom);
    put_redeclared(diags, after, g, offset, spot)
}

/// What an active nested `$v` token of the same name has against another.
pub fn by_known(
    work: &[u32],
    n: usize,
    atom: Atom,
    s: StatementOffset,
) -> Option<(Breach, TokenOffset)>
    requires { Room work.now n × (atom.0 < n) }
    ensures { result ≡ against_known (nested_slot work.now n atom.0 s.0) }
{
    let p = nested_of(work, n, atom, s)?;
    Some((Breach::SymbolRedeclared, p))
}

/// What stands against recording a nested `$v` token at `offset`: a kind and the declaring token.
pub fn verdict_of(
    work: &[u32],
    n: usize,
    atom: Atom,
    offset: TokenOffset,
    s: StatementOffset,
) -> Option<(Breach, TokenOffset)>
    requires { Room work.now n × (atom.0 < n) }
    ensures { Judged work.now n atom.0 offset.0 s.0 result }
{
    match lookup_symbol(work, n, atom) {
        None => by_known(work, n, atom, s),
        Some(Global::Constant(g)) if g.0 < offset.0 => Some((Breach::SymbolRedeclared, g)),
        Some(Global::Variable(g)) if g.0 < offset.0 => Some((Breach::SymbolRedeclared, g)),
        Some(Global::Constant(g)) => Some((Breach::VariableRedeclaredAsConstant, g)),
        Some(Global::Variable(_)) => by_known(work, n, atom, s),
    }
}

/// A token of a nested `$v`: kind 5; then kind 6 or 12, or it is recorded up to `end`.
pub fn check_nested(
    work: &mut [u32],
    n: usize,
    diags: &mut [u8],
    at: usize,
    atom: Atom,
    offset: TokenOffset,
    end: u32,
    spot: Spot,
) -> usize
    requires { Can work.old n at atom.0 }
    ensures { NestedToken work.old work.new diags.old diags.new n at result atom.0 offset.0 end spot.statement.0 spot.index.0 }
{
    let after = check_clash(work, n, diags, at, atom, spot);
    if let Some((breach, o)) = verdict_of(work, n, atom, offset, spot.statement) {
        return put_breach(diags, after, breach, spot, o.0);
    }
    record_nested(work, n, atom, offset, end);
    after
}

/// A token of a `$e`, `$a` or `$p`.
pub fn check_eap_token(
    work: &[u32],
    n: usize,
    diags: &mut [u8],
    at: usize,
    atom: Atom,
    spot: Spot,
) -> usize
    requires { Can work.now n at atom.0 × HasFloat work.now n atom.0 }
    ensures { EapToken work.now diags.old diags.new n at result atom.0 spot.statement.0 spot.index.0 }
{
    let c = check_math_symbol(work, n, atom, spot.statement);
    let f = lookup_float(work, n, atom, spot.statement);
    put_symbol(diags, at, c, f, spot)
}

/// Whether a token of a `$e`, `$a` or `$p` gets no diagnostic: a constant, or a variable with a `$f` that is not token 0.
pub fn is_good(work: &[u32], n: usize, atom: Atom, spot: Spot) -> bool
    requires { Room work.now n × (atom.0 < n) × HasFloat work.now n atom.0 }
    ensures { result ≡ true → Good work.now n atom.0 spot.statement.0 spot.index.0 }
{
    match check_math_symbol(work, n, atom, spot.statement) {
        CheckedToken::Inactive => false,
        CheckedToken::Constant(_) => true,
        CheckedToken::Variable(_) => {
            spot.index.0 != 0 && lookup_float(work, n, atom, spot.statement).is_some()
        }
    }
}

/// A token of a `$d`; the first token of its name gets a mark.
pub fn check_dv_token(
    work: &mut [u32],
    n: usize,
    diags: &mut [u8],
    at: usize,
    atom: Atom,
    spot: Spot,
) -> usize
    requires { Can work.old n at atom.0 × (spot.index.0 < 16777217) }
    ensures { DvToken work.old work.new diags.old diags.new n at result atom.0 spot.statement.0 spot.index.0 }
{
    let c = check_math_symbol(work, n, atom, spot.statement);
    let k = see(work, n, atom, spot.index);
    put_dv(diags, at, c, k, spot)
}

/// The offset of the `$f` of a variable that is active at `s`.
pub fn earlier_float(
    work: &[u32],
    n: usize,
    atom: Atom,
    s: StatementOffset,
) -> Option<StatementOffset>
    requires { Room work.now n × (atom.0 < n) × HasFloat work.now n atom.0 }
    ensures { result ≡ earlier_slot work.now n atom.0 s.0 }
{
    let row = lookup_float(work, n, atom, s)?;
    let at = of_statement(work, n, row.0 as usize, area::AT);
    Some(StatementOffset(at))
}

/// A `$f` after its label: token 0, token 1; if both pass, an earlier `$f` of the variable.
pub fn check_float(
    work: &[u32],
    n: usize,
    diags: &mut [u8],
    at: usize,
    two: FloatTokens,
    s: StatementOffset,
) -> usize
    requires { Can work.now n at two.typecode.0 × Can work.now n at two.variable.0 × HasFloat work.now n two.variable.0 }
    ensures { Float work.now diags.old diags.new n at result two.typecode.0 two.variable.0 s.0 }
{
    let b = check_math_symbol(work, n, two.typecode, s);
    let c = check_math_symbol(work, n, two.variable, s);
    let p = put_typecode(diags, at, b, s);
    let q = put_variable(diags, p, c, s);
    if q != at {
        return q;
    }
    let earlier = earlier_float(work, n, two.variable, s);
    put_found(
        diags,
        q,
        Breach::FloatRedeclared,
        earlier,
        Spot::new(s, TokenIndex(0)),
    )
}
