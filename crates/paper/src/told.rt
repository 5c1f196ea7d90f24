// Document 01's number for each case of an answer, and its place or how much is needed.
// Whatever tells an answer in numbers takes them from here.
ghost use Rattle.std.specs.Prelude.{◌≡◌};
ghost use Rattle.paper.specs.Answer.{refusal_number, refusal_place};
ghost use Rattle.paper.specs.Lookup.{found_number, found_place};
ghost use Rattle.paper.specs.Convert.{unconverted_number, unconverted_place};

use crate::{Found, Refusal, Unconverted};

impl Refusal {
    /// Numbers 1 to 9.
    pub fn number(self) -> u32
        ensures { result ≡ refusal_number self }
    {
        match self {
            Refusal::LongText => 1,
            Refusal::ShortWork(_) => 2,
            Refusal::BadByte(_) => 3,
            Refusal::OpenComment(_) => 4,
            Refusal::BadToken(_) => 5,
            Refusal::OpenText(_) => 6,
            Refusal::ManyVariables(_) => 7,
            Refusal::ShortFrames(_) => 8,
            Refusal::ShortDiags(_) => 9,
        }
    }

    /// Where, or how much is needed.
    pub fn place(self) -> u64
        ensures { result ≡ refusal_place self }
    {
        match self {
            Refusal::LongText => 0,
            Refusal::ShortWork(needed) => needed,
            Refusal::BadByte(at)
            | Refusal::OpenComment(at)
            | Refusal::BadToken(at)
            | Refusal::OpenText(at)
            | Refusal::ManyVariables(at) => at,
            Refusal::ShortFrames(needed) | Refusal::ShortDiags(needed) => needed,
        }
    }
}

impl Unconverted {
    /// Number 10 or 8.
    pub fn number(self) -> u32
        ensures { result ≡ unconverted_number self }
    {
        match self {
            Unconverted::Unfit(_) => 10,
            Unconverted::NoRoom(_) => 8,
        }
    }

    /// Where, or how much is needed.
    pub fn place(self) -> u64
        ensures { result ≡ unconverted_place self }
    {
        match self {
            Unconverted::Unfit(at) => at,
            Unconverted::NoRoom(needed) => needed,
        }
    }
}

/// 0, 10 or 11.
pub fn found_number(found: Found) -> u32
    ensures { result ≡ found_number found }
{
    match found {
        Ok(Some(_)) => 0,
        Err(_) => 10,
        Ok(None) => 11,
    }
}

/// The record that is found, or the first bad one; 0 for neither.
pub fn found_place(found: Found) -> u64
    ensures { result ≡ found_place found }
{
    match found {
        Ok(Some(at)) => at,
        Err(bad) => bad.0,
        Ok(None) => 0,
    }
}
