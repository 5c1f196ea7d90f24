// Why a text is refused, with the line: a token that may not stand where it does, or an end where more must stand.
// No line is told of an end.
ghost use Rattle.std.specs.Prelude.{◌≡◌, ◌≤◌, length};
ghost use Rattle.paper.specs.declared.Refusal.TheVariants.{BadToken, OpenText};

use paper::{Refusal, Refused};
use token::cursor::Span;

/// Number 5: the token x may not stand here.
pub fn bad_token(x: Span) -> Refused
    ensures { result ≡ record { refusal = BadToken x.start; line = x.line } }
{
    Refused {
        refusal: Refusal::BadToken(x.start as u64),
        line: x.line,
    }
}

/// Number 6: the text ends here.
pub fn open_text(text: &[u8]) -> Refused
    ensures { result ≡ record { refusal = OpenText (length text.now); line = 0 } }
{
    Refused {
        refusal: Refusal::OpenText(text.len() as u64),
        line: 0,
    }
}
