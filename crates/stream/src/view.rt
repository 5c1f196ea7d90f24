// `FrameRef`: the frame bytes and the place of a record in them, and what is asked of that record.
// Each method calls the function of `field` that does the work; `facts_of` has plain parameters.
ghost use Rattle.std.specs.Prelude.{◌≡◌};
ghost use Rattle.stream.specs.Fields.{label_at, kind_at, variables_at, mandatory_at, hypotheses_at};
ghost use Rattle.stream.specs.Facts.{facts_at};

use crate::field;

/// A record of a frame stream.
#[derive(Clone, Copy)]
pub struct FrameRef<'a> {
    pub frames: &'a [u8],
    pub at: usize,
}

/// What the four methods answer of one record.
#[derive(Clone, Copy)]
pub struct Facts {
    pub kind: Option<usize>,
    pub variables: Option<usize>,
    pub mandatory: Option<usize>,
    pub hypotheses: Option<usize>,
}

impl<'a> FrameRef<'a> {
    /// The record at a place of the frame bytes.
    pub fn new(frames: &'a [u8], at: usize) -> FrameRef<'a>
        ensures { (result.frames ≡ frames.entry) × (result.at ≡ at) }
    {
        FrameRef { frames, at }
    }

    /// The label; no bytes for a record that is not well framed.
    pub fn label(self) -> &'a [u8]
        ensures { result.now ≡ label_at self.entry.frames.now self.entry.at }
    {
        field::label_at(self.frames, self.at)
    }

    /// The kind.
    pub fn kind(self) -> Option<usize>
        ensures { result ≡ kind_at self.entry.frames.now self.entry.at }
    {
        field::kind_at(self.frames, self.at)
    }

    /// V, the number of variables of an assertion.
    pub fn variables(self) -> Option<usize>
        ensures { result ≡ variables_at self.entry.frames.now self.entry.at }
    {
        field::variables_at(self.frames, self.at)
    }

    /// M, the number of mandatory variables of an assertion.
    pub fn mandatory(self) -> Option<usize>
        ensures { result ≡ mandatory_at self.entry.frames.now self.entry.at }
    {
        field::mandatory_at(self.frames, self.at)
    }

    /// The number of hypotheses of an assertion.
    pub fn hypotheses(self) -> Option<usize>
        ensures { result ≡ hypotheses_at self.entry.frames.now self.entry.at }
    {
        field::hypotheses_at(self.frames, self.at)
    }
}

/// All four, for callers that have the bytes and a place.
pub fn facts_of(frames: &[u8], at: usize) -> Facts
    ensures { result ≡ facts_at frames.now at }
{
    let r = FrameRef::new(frames, at);
    Facts {
        kind: r.kind(),
        variables: r.variables(),
        mandatory: r.mandatory(),
        hypotheses: r.hypotheses(),
    }
}
