// The types that the definitions and the code share: the kinds of number, and the answers.
// `specs/Answer.antt` gives document 01's number, place and lengths for each case of an answer; `told` has them for the code.
#![tactic(auto)]

pub mod told;

/// A distinct name, numbered by first sight.
#[derive(Clone, Copy)]
pub struct Atom(pub u32);

/// The byte offset of a statement's first token.
#[derive(Clone, Copy)]
pub struct StatementOffset(pub u32);

/// The byte offset of a math token.
#[derive(Clone, Copy)]
pub struct TokenOffset(pub u32);

/// The place of a math token in its statement, from 0.
#[derive(Clone, Copy)]
pub struct TokenIndex(pub u32);

/// The row of a statement in the work area.
#[derive(Clone, Copy)]
pub struct StatementRow(pub u32);

/// The row of a math token in the work area.
#[derive(Clone, Copy)]
pub struct TokenRow(pub u32);

/// The number of a variable in a frame, by first sight.
#[derive(Clone, Copy)]
pub struct VariableNumber(pub u32);

/// Numbers 1 to 9, each with its place; number 1 has place 0.
#[derive(Clone, Copy)]
pub enum Refusal {
    LongText,
    ShortWork(u64),
    BadByte(u64),
    OpenComment(u64),
    BadToken(u64),
    OpenText(u64),
    ManyVariables(u64),
    ShortFrames(u64),
    ShortDiags(u64),
}

/// Why a text is refused, and the line of that; 0 where no line is told.
#[derive(Clone, Copy)]
pub struct Refused {
    pub refusal: Refusal,
    pub line: u64,
}

/// A text that is read: the numbers of its statements and of its math tokens.
#[derive(Clone, Copy)]
pub struct Statements {
    pub rows: usize,
    pub maths: usize,
}

/// Which frames of assertions are written: with the mandatory variables only, or full.
#[derive(Clone, Copy)]
pub enum Setting {
    Short,
    Full,
}

/// How many bytes of frames and of diagnostics there are, and how many frames.
#[derive(Clone, Copy)]
pub struct Lengths {
    pub frames: u64,
    pub diags: u64,
    pub count: u64,
}

/// What measure and writer answer: the lengths that are needed or used, or why the text is refused.
pub type Answer = Result<Lengths, Refused>;

/// The first bad record of a frame stream, by its offset.
#[derive(Clone, Copy)]
pub struct Malformed(pub u64);

/// What look-up answers: the record's offset, or none where no record bears the label; or the first bad record.
pub type Found = Result<Option<u64>, Malformed>;

/// Why a stream is not converted: its first record that does not fit its layout, or the bytes needed.
#[derive(Clone, Copy)]
pub enum Unconverted {
    Unfit(u64),
    NoRoom(u64),
}

/// What the converter answers: the used bytes, or why there are none.
pub type Converted = Result<u64, Unconverted>;
