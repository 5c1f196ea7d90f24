// The token cursor: white space passed, the next token with the least class of its bytes and its line; keywords.
// A cursor has the line of its place. No bound is asked of it: past the end of the text there is nothing.
ghost use Rattle.std.specs.Prelude.{◌≡◌, [], ◌∷◌, length, get_or, ◌+◌, ◌<◌, ◌≤◌};
ghost use Rattle.paper.specs.Base.{sameb};
ghost use Rattle.paper.specs.Lines.{feeds, line_at};
ghost use Rattle.token.specs.Words.{past_gap, Lined, span_from, tokens_from, next_of};

use crate::class::{LABEL, WHITE, class_of};

/// The byte that ends a line, and no other does.
pub const FEED: u8 = 10;

/// The byte that every keyword starts with.
pub const DOLLAR: u8 = b'$';

pub const KEY_C: [u8; 2] = [b'$', b'c'];

pub const KEY_V: [u8; 2] = [b'$', b'v'];

pub const KEY_D: [u8; 2] = [b'$', b'd'];

pub const KEY_F: [u8; 2] = [b'$', b'f'];

pub const KEY_E: [u8; 2] = [b'$', b'e'];

pub const KEY_A: [u8; 2] = [b'$', b'a'];

pub const KEY_P: [u8; 2] = [b'$', b'p'];

pub const KEY_STOP: [u8; 2] = [b'$', b'.'];

pub const KEY_PROOF: [u8; 2] = [b'$', b'='];

pub const KEY_OPEN: [u8; 2] = [b'$', b'{'];

pub const KEY_CLOSE: [u8; 2] = [b'$', b'}'];

pub const KEY_COMMENT: [u8; 2] = [b'$', b'('];

pub const KEY_COMMENT_END: [u8; 2] = [b'$', b')'];

/// Whether the bytes of a token are this keyword.
pub fn is_key(s: &[u8], key: [u8; 2]) -> bool
    ensures { result ≡ sameb s.now (get_or key 0 0 ∷ get_or key 1 0 ∷ []) }
{
    s == key.as_slice()
}

/// Where a token starts and stops, its line, and the least class of its bytes: `LABEL` for a label token, `MATH` or `LABEL` for a math token.
/// The class is a wide number, so that no byte of a span is padding: padding made each answer through `Result` wait.
#[derive(Clone, Copy)]
pub struct Span {
    pub start: usize,
    pub stop: usize,
    pub line: u64,
    pub least: u64,
}

/// A place in a text, and its line.
#[derive(Clone, Copy)]
pub struct Cursor {
    pub at: usize,
    pub line: u64,
}

/// How many bytes are counted at once: so few that 16 bits hold the count of their line feeds.
const LEG: usize = 32768;

/// How many line feeds some bytes hold. In 16 bits the back end counts many bytes at once.
fn feeds_in(leg: &[u8]) -> u16
    requires { length leg.now ≤ 32768 }
    ensures { (result ≡ feeds leg.now) × (result ≤ 32768) }
{
    let mut sum = 0;
    for &b in leg {
        sum += u16::from(b == FEED);
    }
    sum
}

/// The start of a text.
pub fn text_start() -> Cursor
    ensures { result ≡ record { at = 0; line = 1 } }
{
    Cursor { at: 0, line: 1 }
}

impl Cursor {
    /// The cursor at `to`, with the line feeds on the way counted.
    pub fn hop(self, text: &[u8], to: usize) -> Self
        requires { Lined text.now self × (self.at ≤ to) × (to ≤ length text.now) }
        ensures { (result.at ≡ to) × Lined text.now result }
    {
        let mut line = self.line;
        for leg in text[self.at..to].chunks(LEG) {
            line += u64::from(feeds_in(leg));
        }
        Cursor { at: to, line }
    }

    /// The cursor past the white space that stands here.
    pub fn skip_white(mut self, text: &[u8]) -> Self
        requires { Lined text.now self }
        ensures { (result.at ≡ past_gap text.now self.at) × Lined text.now result }
    {
        let mut line = self.line;
        for at in self.at..text.len() {
            let b = text[at];
            if class_of(b) != WHITE {
                self.at = at;
                self.line = line;
                return self;
            }
            line += u64::from(b == FEED);
        }
        self.at = self.at.max(text.len());
        self.line = line;
        self
    }

    /// The token that stands here, up to white space or the end of the text.
    pub fn to_white(self, text: &[u8]) -> Span
        ensures { result ≡ span_from text.now self self.at 4 }
    {
        let mut least = LABEL;
        for at in self.at..text.len() {
            let c = class_of(text[at]);
            if c == WHITE {
                return self.span(at, least);
            }
            least = least.min(c);
        }
        self.span(self.at.max(text.len()), least)
    }

    /// The token from here up to `stop`.
    fn span(self, stop: usize, least: u8) -> Span
        ensures { result ≡ record { start = self.at; stop = stop; line = self.line; least = least } }
    {
        Span {
            start: self.at,
            stop,
            line: self.line,
            least: u64::from(least),
        }
    }

    /// The first token from here on, and the cursor after it; none if there is no more.
    pub fn next(mut self, text: &[u8]) -> Option<(Span, Cursor)>
        requires { Lined text.now self }
        ensures { result ≡ next_of text.now (tokens_from text.now self.at) }
    {
        self = self.skip_white(text);
        if text.len() <= self.at {
            return None;
        }
        let x = self.to_white(text);
        self.at = x.stop;
        Some((x, self))
    }
}
