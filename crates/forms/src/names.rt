// Names: the bytes of an atom's name, as a string; the strings of a frame's variables.
// A name's bytes stand in the text, from its word START up to its word STOP.
ghost use Rattle.std.specs.Prelude.{◌≡◌, ◌+◌, ◌<◌, ◌≤◌, ◌^◌};
ghost use Rattle.paper.specs.Records.{string};
ghost use Rattle.stream.specs.Wrote.{Wrote};
ghost use Rattle.forms.specs.Words.{name_bytes, NameWords, VarWords};
ghost use Rattle.forms.specs.Puts.{PutNames};

use crate::words;
use paper::{Atom, VariableNumber};

/// The bytes of a name.
#[tactic(auto, unfolding(crate::specs::Words::name_bytes))]
pub fn name_part<'a>(text: &'a [u8], work: &[u32], n: usize, atom: Atom) -> &'a [u8]
    requires { NameWords text.now work.now n atom.0 }
    ensures { result.now ≡ name_bytes text.now work.now n atom.0 }
{
    &text[words::name_range(work, n, atom)]
}

/// The name of an atom, as a string.
pub fn put_name(text: &[u8], work: &[u32], n: usize, buf: &mut [u8], at: usize, atom: Atom) -> usize
    requires { NameWords text.now work.now n atom.0 × (at < 2 ^ 62) }
    ensures { (result ≤ at + 16777220) × Wrote buf.old buf.new at result (string (name_bytes text.now work.now n atom.0)) }
{
    stream::write::put_string(buf, at, name_part(text, work, n, atom))
}

/// The names of the first `vars` variables, each as a string.
pub fn put_names(
    text: &[u8],
    work: &[u32],
    n: usize,
    buf: &mut [u8],
    at: usize,
    vars: usize,
) -> usize
    requires { VarWords text.now work.now n vars × (at < 2 ^ 61) }
    ensures { PutNames text.now work.now n vars buf.old buf.new at result }
{
    let mut a = at;
    for k in 0..vars {
        let atom = words::bucket_word(work, n, VariableNumber(k as u32));
        a = put_name(text, work, n, buf, a, atom);
    }
    a
}
