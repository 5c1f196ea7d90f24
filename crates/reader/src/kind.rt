// Kinds of statements: of a keyword, and what each kind asks of its math string.
// Each keyword is told from its bytes, and a kind's number is the word of a statement's row.
ghost use Rattle.std.specs.Prelude.{◌≡◌, [], ◌∷◌, ◌≤◌, length};
ghost use Rattle.paper.specs.Reader.{plain_kind, label_kind};
ghost use Rattle.token.specs.Words.{token_of};
ghost use Rattle.reader.specs.Kinds.{code, number_of, least_number, most_number, closing_number};

use token::cursor::{
    KEY_A, KEY_C, KEY_D, KEY_E, KEY_F, KEY_P, KEY_PROOF, KEY_STOP, KEY_V, Span, is_key,
};

/// `$c` to `$p`.
#[derive(Clone, Copy)]
pub enum Kind {
    C,
    V,
    D,
    F,
    E,
    A,
    P,
}

/// The kind of a keyword that stands without a label.
pub fn plain_code(text: &[u8], x: Span) -> Option<Kind>
    requires { (x.start ≤ x.stop) × (x.stop ≤ length text.now) }
    ensures { result ≡ code (plain_kind (token_of text.now x)) }
{
    let s = &text[x.start..x.stop];
    if is_key(s, KEY_C) {
        return Some(Kind::C);
    }
    if is_key(s, KEY_V) {
        return Some(Kind::V);
    }
    if is_key(s, KEY_D) {
        return Some(Kind::D);
    }
    None
}

/// The kind of a keyword that stands after a label.
pub fn label_code(text: &[u8], x: Span) -> Option<Kind>
    requires { (x.start ≤ x.stop) × (x.stop ≤ length text.now) }
    ensures { result ≡ code (label_kind (token_of text.now x)) }
{
    let s = &text[x.start..x.stop];
    if is_key(s, KEY_F) {
        return Some(Kind::F);
    }
    if is_key(s, KEY_E) {
        return Some(Kind::E);
    }
    if is_key(s, KEY_A) {
        return Some(Kind::A);
    }
    if is_key(s, KEY_P) {
        return Some(Kind::P);
    }
    None
}

impl Kind {
    /// The word of a statement's row that holds the kind.
    pub fn number(self) -> u32
        ensures { result ≡ number_of self }
    {
        match self {
            Kind::C => 1,
            Kind::V => 2,
            Kind::D => 3,
            Kind::F => 4,
            Kind::E => 5,
            Kind::A => 6,
            Kind::P => 7,
        }
    }

    /// The least number of math tokens.
    pub fn least(self) -> usize
        ensures { result ≡ least_number self }
    {
        match self {
            Kind::D | Kind::F => 2,
            _ => 1,
        }
    }

    /// A number of math tokens that none has more of.
    pub fn most(self) -> usize
        ensures { result ≡ most_number self }
    {
        match self {
            Kind::F => 2, // a `$f` has exactly two
            _ => 16777217,
        }
    }

    /// The keyword that closes the math string.
    pub fn closing(self) -> [u8; 2]
        ensures { result ≡ 36 ∷ closing_number self ∷ [] }
    {
        match self {
            Kind::P => KEY_PROOF,
            _ => KEY_STOP,
        }
    }
}
