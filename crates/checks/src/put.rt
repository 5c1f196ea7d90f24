// Diagnostics written by what the look-ups found. Each function answers the place after what it wrote.
// A look-up's answer is a value or nothing; `spot` is the statement and the token.
ghost use Rattle.std.specs.Prelude.{◌+◌, ◌<◌, ◌≤◌, ◌^◌};
ghost use Rattle.paper.specs.Base.{gather};
ghost use Rattle.paper.specs.Checks.{diag, typecode_diags, variable_diags};
ghost use Rattle.paper.specs.Records.{diag_record};
ghost use Rattle.stream.specs.Wrote.{Wrote};
ghost use Rattle.checks.specs.Breach.{number};
ghost use Rattle.checks.specs.Found.{sense_of, found_by, label_by, again, redeclared_by, missing_by, symbol_by, disjoint_by};

use crate::{Breach, Spot};
use nameck::lookup::Global;
use paper::{StatementOffset, StatementRow, TokenIndex, TokenOffset};
use slots::CheckedToken;
use stream::record::put_diag;

/// One diagnostic.
pub fn put_breach(out: &mut [u8], at: usize, breach: Breach, spot: Spot, other: u32) -> usize
    requires { at < 2 ^ 60 }
    ensures { (result ≤ at + 18) × Wrote out.old out.new at result (gather diag_record (diag (number breach) spot.statement.0 spot.index.0 other)) }
{
    put_diag(out, at, breach.into(), spot.statement, spot.index, other)
}

/// A diagnostic that tells the offset of another statement, if there is one.
pub fn put_found(
    out: &mut [u8],
    at: usize,
    breach: Breach,
    other: Option<StatementOffset>,
    spot: Spot,
) -> usize
    requires { at < 2 ^ 60 }
    ensures { (result ≤ at + 18) × Wrote out.old out.new at result (gather diag_record (found_by (number breach) other spot.statement.0 spot.index.0)) }
{
    match other {
        Some(o) => put_breach(out, at, breach, spot, o.0),
        None => at,
    }
}

/// Kind 1: another statement owns the label.
pub fn put_label(
    out: &mut [u8],
    at: usize,
    owner: Option<StatementOffset>,
    s: StatementOffset,
) -> usize
    requires { at < 2 ^ 60 }
    ensures { (result ≤ at + 18) × Wrote out.old out.new at result (gather diag_record (label_by owner s.0)) }
{
    match owner {
        Some(o) if o.0 == s.0 => at,
        Some(o) => put_breach(
            out,
            at,
            Breach::DuplicateLabel,
            Spot::new(s, TokenIndex(0)),
            o.0,
        ),
        None => at,
    }
}

/// Kind 6: the declaration at `p` is not that of the token at `offset`.
pub fn put_again(
    out: &mut [u8],
    at: usize,
    p: TokenOffset,
    offset: TokenOffset,
    spot: Spot,
) -> usize
    requires { at < 2 ^ 60 }
    ensures { (result ≤ at + 18) × Wrote out.old out.new at result (gather diag_record (again p.0 offset.0 spot.statement.0 spot.index.0)) }
{
    if p.0 == offset.0 {
        return at;
    }
    put_breach(out, at, Breach::SymbolRedeclared, spot, p.0)
}

/// Kind 6 by the global declaration.
pub fn put_redeclared(
    out: &mut [u8],
    at: usize,
    g: Option<Global>,
    offset: TokenOffset,
    spot: Spot,
) -> usize
    requires { at < 2 ^ 60 }
    ensures { (result ≤ at + 18) × Wrote out.old out.new at result (gather diag_record (redeclared_by g offset.0 spot.statement.0 spot.index.0)) }
{
    match g {
        Some(Global::Constant(p) | Global::Variable(p)) => put_again(out, at, p, offset, spot),
        None => at,
    }
}

/// Kinds 2 and 9: token 0 of a `$f`.
pub fn put_typecode(out: &mut [u8], at: usize, c: CheckedToken, s: StatementOffset) -> usize
    requires { at < 2 ^ 60 }
    ensures { (result ≤ at + 18) × Wrote out.old out.new at result (gather diag_record (typecode_diags (sense_of c) s.0)) }
{
    let spot = Spot::new(s, TokenIndex(0));
    match c {
        CheckedToken::Inactive => put_breach(out, at, Breach::NotActiveSymbol, spot, 0),
        CheckedToken::Constant(_) => at,
        CheckedToken::Variable(_) => put_breach(out, at, Breach::FloatNotConstant, spot, 0),
    }
}

/// Kinds 2 and 10: token 1 of a `$f`.
pub fn put_variable(out: &mut [u8], at: usize, c: CheckedToken, s: StatementOffset) -> usize
    requires { at < 2 ^ 60 }
    ensures { (result ≤ at + 18) × Wrote out.old out.new at result (gather diag_record (variable_diags (sense_of c) s.0)) }
{
    let spot = Spot::new(s, TokenIndex(1));
    match c {
        CheckedToken::Inactive => put_breach(out, at, Breach::NotActiveSymbol, spot, 0),
        CheckedToken::Constant(_) => put_breach(out, at, Breach::FloatNotVariable, spot, 0),
        CheckedToken::Variable(_) => at,
    }
}

/// Kinds 2, 3 and 4: a token of a `$e`, `$a` or `$p`; `f` is the `$f` of a variable.
pub fn put_symbol(
    out: &mut [u8],
    at: usize,
    c: CheckedToken,
    f: Option<StatementRow>,
    spot: Spot,
) -> usize
    requires { at < 2 ^ 60 }
    ensures { (result ≤ at + 18) × Wrote out.old out.new at result (gather diag_record (symbol_by (sense_of c) f spot.statement.0 spot.index.0)) }
{
    match (c, f) {
        (CheckedToken::Inactive, _) => put_breach(out, at, Breach::NotActiveSymbol, spot, 0),
        (CheckedToken::Constant(_), _) => at,
        (CheckedToken::Variable(_), _) if spot.index.0 == 0 => {
            put_breach(out, at, Breach::ExprNotConstantPrefix, spot, 0)
        }
        (CheckedToken::Variable(_), None) => {
            put_breach(out, at, Breach::VariableMissingFloat, spot, 0)
        }
        (CheckedToken::Variable(_), Some(_)) => at,
    }
}

/// Kinds 2, 7 and 8: a token of a `$d`; `k` is the index of the first token of its name.
pub fn put_dv(
    out: &mut [u8],
    at: usize,
    c: CheckedToken,
    k: Option<TokenIndex>,
    spot: Spot,
) -> usize
    requires { at < 2 ^ 60 }
    ensures { (result ≤ at + 18) × Wrote out.old out.new at result (gather diag_record (disjoint_by (sense_of c) k spot.statement.0 spot.index.0)) }
{
    match (c, k) {
        (CheckedToken::Inactive, _) => put_breach(out, at, Breach::NotActiveSymbol, spot, 0),
        (CheckedToken::Constant(_), _) => put_breach(out, at, Breach::DjNotVariable, spot, 0),
        (CheckedToken::Variable(_), Some(j)) => {
            put_breach(out, at, Breach::DjRepeatedVariable, spot, j.0)
        }
        (CheckedToken::Variable(_), None) => at,
    }
}
