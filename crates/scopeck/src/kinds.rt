// The check of a statement of each kind: its diagnostics, and what it records if it got none.
// The math string of the statement comes in as a part of the text.
ghost use Rattle.std.specs.Prelude.{◌≡◌, ◌+◌, ◌<◌, ◌≤◌, ◌^◌};
ghost use Rattle.area.specs.Cells.{statement_cell, word};
ghost use Rattle.paper.specs.Records.{diag_record};
ghost use Rattle.scopeck.specs.Scope.{SomePart, GivesPart};
ghost use Rattle.stream.specs.Diagnostic.{diagnostic};
ghost use Rattle.stream.specs.Wrote.{WroteOrKept};

use crate::rows::check_label_dup;
use crate::{Row, Scope};
use checks::Breach;
use checks::tokens::{check_float, check_label};
use checks::walks::{check_dv, check_eap, float_tokens, walk_nested, walk_outer};
use paper::{StatementOffset, StatementRow, TokenIndex};
use slots::look::record_float;
use slots::stack::push;
use stream::state::{DiagState, push_diagnostic};

/// Kind 13: a `$c` in a block. The writer's state is made here and lent to `push_diagnostic`.
pub fn put_nested_constant(out: &mut [u8], at: usize, s: StatementOffset) -> usize
    requires { at + 18 < 2 ^ 64 }
    ensures { (result ≡ at + 18) × WroteOrKept out.old out.new at result (diag_record (diagnostic 13 s.0 0 0)) }
{
    let mut told = DiagState { used: at, count: 0 };
    push_diagnostic(
        &mut told,
        out,
        Breach::NestedConstant.into(),
        s,
        TokenIndex(0),
        0,
    );
    told.used
}

/// `$c`, whose math string is `part`: a nested one declares nothing.
pub fn scope_check_constant(
    part: &[u8],
    work: &[u32],
    n: usize,
    diags: &mut [u8],
    st: Scope,
    row: usize,
) -> Scope
    requires { SomePart work.now part.now n st row × (word work.now (statement_cell row 0) ≡ 1) }
    ensures { GivesPart work.now work.now part.now diags.old diags.new n st result row }
{
    let x = Row::read(work, n, row);
    if x.end != area::NO_END {
        let p = put_nested_constant(diags, st.diags, x.at);
        return Scope { diags: p, ..st };
    }
    let p = walk_outer(part, work, n, diags, st.diags, x.first, x.from, x.at);
    Scope { diags: p, ..st }
}

/// `$v`, whose math string is `part`: a nested one is recorded token by token.
pub fn scope_check_variable(
    part: &[u8],
    work: &mut [u32],
    n: usize,
    diags: &mut [u8],
    st: Scope,
    row: usize,
) -> Scope
    requires { SomePart work.old part.now n st row × (word work.old (statement_cell row 0) ≡ 2) }
    ensures { GivesPart work.old work.new part.now diags.old diags.new n st result row }
{
    let x = Row::read(work, n, row);
    if x.end != area::NO_END {
        let p = walk_nested(part, work, n, diags, st.diags, x.first, x.from, x.end, x.at);
        return Scope { diags: p, ..st };
    }
    let p = walk_outer(part, work, n, diags, st.diags, x.first, x.from, x.at);
    Scope { diags: p, ..st }
}

/// `$d`, whose math string is `part`: put on its stack if it is accepted.
pub fn scope_check_dv(
    part: &[u8],
    work: &mut [u32],
    n: usize,
    diags: &mut [u8],
    st: Scope,
    row: usize,
) -> Scope
    requires { SomePart work.old part.now n st row × (word work.old (statement_cell row 0) ≡ 3) }
    ensures { GivesPart work.old work.new part.now diags.old diags.new n st result row }
{
    let x = Row::read(work, n, row);
    let p = check_dv(part, work, n, diags, st.diags, x.first, x.count, x.at);
    if p != st.diags {
        return Scope { diags: p, ..st };
    }
    push(work, n, area::DIS, st.ds, row);
    Scope {
        ds: st.ds + 1,
        ..st
    }
}

/// `$f`, whose math string is `part`: its variable's slot holds its row if it is accepted.
pub fn scope_check_float(
    part: &[u8],
    work: &mut [u32],
    n: usize,
    diags: &mut [u8],
    st: Scope,
    row: usize,
) -> Scope
    requires { SomePart work.old part.now n st row × (word work.old (statement_cell row 0) ≡ 4) }
    ensures { GivesPart work.old work.new part.now diags.old diags.new n st result row }
{
    let x = Row::read(work, n, row);
    let Some(_) = check_label_dup(work, n, x.label, x.at) else {
        let p = check_label(work, n, diags, st.diags, x.label, x.at);
        return Scope { diags: p, ..st };
    };
    let two = float_tokens(part, work, n, x.first);
    let p = check_float(work, n, diags, st.diags, two, x.at);
    if st.diags != p {
        return Scope { diags: p, ..st };
    }
    record_float(work, n, two.variable, StatementRow(row as u32));
    st
}

/// `$e`, whose math string is `part`: put on its stack if it is accepted.
pub fn scope_check_essential(
    part: &[u8],
    work: &mut [u32],
    n: usize,
    diags: &mut [u8],
    st: Scope,
    row: usize,
) -> Scope
    requires { SomePart work.old part.now n st row × (word work.old (statement_cell row 0) ≡ 5) }
    ensures { GivesPart work.old work.new part.now diags.old diags.new n st result row }
{
    let x = Row::read(work, n, row);
    let Some(_) = check_label_dup(work, n, x.label, x.at) else {
        let p = check_label(work, n, diags, st.diags, x.label, x.at);
        return Scope { diags: p, ..st };
    };
    let p = check_eap(part, work, n, diags, st.diags, x.first, x.count, x.at);
    if p != st.diags {
        return Scope { diags: p, ..st };
    }
    push(work, n, area::ESS, st.es, row);
    Scope {
        es: st.es + 1,
        ..st
    }
}

/// `$a` or `$p`, whose math string is `part`.
pub fn scope_check_assert(
    part: &[u8],
    work: &[u32],
    n: usize,
    diags: &mut [u8],
    st: Scope,
    row: usize,
) -> Scope
    requires { SomePart work.now part.now n st row × (6 ≤ word work.now (statement_cell row 0)) }
    ensures { GivesPart work.now work.now part.now diags.old diags.new n st result row }
{
    let x = Row::read(work, n, row);
    let Some(_) = check_label_dup(work, n, x.label, x.at) else {
        let p = check_label(work, n, diags, st.diags, x.label, x.at);
        return Scope { diags: p, ..st };
    };
    let p = check_eap(part, work, n, diags, st.diags, x.first, x.count, x.at);
    Scope { diags: p, ..st }
}
