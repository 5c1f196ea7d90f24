// The checks of one statement's tokens: what each token gets, and the walks over the tokens of each kind of statement.
// Every diagnostic goes through `stream::record::put_diag`; what was found decides which.
#![tactic(auto)]

ghost use Rattle.std.specs.Prelude.{◌≡◌};
ghost use Rattle.checks.specs.Breach.{number};

use paper::{Atom, StatementOffset, TokenIndex};

pub mod part;
pub mod put;
pub mod tokens;
pub mod walks;

/// What a diagnostic tells, by document 01's names; its number is the kind in the diagnostics stream.
#[derive(Clone, Copy)]
pub enum Breach {
    DuplicateLabel = 1,
    NotActiveSymbol = 2,
    ExprNotConstantPrefix = 3,
    VariableMissingFloat = 4,
    SymbolDuplicatesLabel = 5,
    SymbolRedeclared = 6,
    DjNotVariable = 7,
    DjRepeatedVariable = 8,
    FloatNotConstant = 9,
    FloatNotVariable = 10,
    FloatRedeclared = 11,
    VariableRedeclaredAsConstant = 12,
    NestedConstant = 13,
}

impl From<Breach> for u32 {
    ghost from_gives = { λ b k. k ≡ number b };

    fn from(b: Breach) -> u32 {
        b as u32
    }
}

/// Where a diagnostic stands: the offset of a statement, and the index of one of its tokens.
#[derive(Clone, Copy)]
pub struct Spot {
    pub statement: StatementOffset,
    pub index: TokenIndex,
}

impl Spot {
    /// Token `index` of the statement at `statement`; 0 where a kind has no index.
    pub fn new(statement: StatementOffset, index: TokenIndex) -> Self
        ensures { result ≡ record { statement = statement; index = index } }
    {
        Spot { statement, index }
    }
}

/// The two tokens of a `$f`.
#[derive(Clone, Copy)]
pub struct FloatTokens {
    pub typecode: Atom,
    pub variable: Atom,
}
