// N and the first bad byte of a text, in one pass without a branch on a byte, by one weight for each.
// Only where a bad byte was met are they counted and the first of them looked for.
ghost use Rattle.std.specs.Prelude.{◌≡◌, length, ◌≤◌, IfSome};
ghost use Rattle.paper.specs.Tokens.{bad_from};
ghost use Rattle.token.specs.Count.{weight, Weights, tally_of, bad_of, count_of};

use crate::class::{BAD, WHITE, class_of};

/// The number of tokens, and the offset of the first byte that is neither white space nor printable.
#[derive(Clone, Copy)]
pub struct Counted {
    pub tokens: usize,
    pub bad: Option<usize>,
}

/// The number of tokens, and of bad bytes.
#[derive(Clone, Copy)]
pub struct Tally {
    pub tokens: usize,
    pub bads: usize,
}

/// What a class weighs: white space 1, a bad byte 2^32, any other nothing.
pub fn weight_of(c: u8) -> usize
    ensures { result ≡ weight c }
{
    match c {
        WHITE => 1,
        BAD => 4294967296,
        _ => 0,
    }
}

/// The weights of all bytes.
pub fn weights_of() -> [usize; 256]
    ensures { Weights result }
{
    std::array::from_fn(|b| weight_of(class_of(b as u8)))
}

/// The number of tokens, by where they start, if no byte is bad.
pub fn weigh_all(weights: &[usize; 256], text: &[u8]) -> Option<usize>
    requires { Weights weights.now × (length text.now ≤ 16777216) }
    ensures { IfSome result (λ n. record { tokens = n; bads = 0 } ≡ tally_of text.now) }
{
    let mut tokens = 0;
    let mut sum = 0;
    let mut before = 1;
    for &b in text {
        let weight = weights[usize::from(b)];
        sum += weight;
        tokens += usize::from(weight < before);
        before = weight;
    }
    if sum < 4294967296 { Some(tokens) } else { None }
}

/// Counts tokens, by where they start, and bad bytes.
pub fn tally_all(text: &[u8]) -> Tally
    ensures { result ≡ tally_of text.now }
{
    if text.len() <= 16777216 {
        if let Some(tokens) = weigh_all(&weights_of(), text) {
            return Tally { tokens, bads: 0 };
        }
    }
    tally_bytes(text)
}

/// The same byte by byte.
pub fn tally_bytes(text: &[u8]) -> Tally
    ensures { result ≡ tally_of text.now }
{
    let mut tokens = 0;
    let mut bads = 0;
    let mut before = 1;
    for &b in text {
        let c = class_of(b);
        let white = usize::from(c == WHITE);
        tokens += usize::from(white < before);
        bads += usize::from(c == BAD);
        before = white;
    }
    Tally { tokens, bads }
}

/// The first bad byte.
pub fn first_bad(text: &[u8]) -> Option<usize>
    ensures { result ≡ bad_of (bad_from text.now 0) }
{
    text.iter().position(|&b| class_of(b) == BAD)
}

/// Counts the tokens of a text, and finds its first bad byte.
pub fn count(text: &[u8]) -> Counted
    ensures { result ≡ count_of text.now }
{
    let Tally { tokens, bads } = tally_all(text);
    let bad = if bads == 0 { None } else { first_bad(text) };
    Counted { tokens, bad }
}
