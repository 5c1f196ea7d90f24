// The parts of a frame record: each function answers what is left of the bytes after one, or none where it does not fit.
// `paper`'s `specs/Layout.antt` says what each part is.
ghost use Rattle.std.specs.Prelude.{◌≡◌, ◌≤◌, option_copied, IfSome};
ghost use Rattle.paper.specs.Layout.{part, counted, times, a_string, a_stub, an_expression, hypothesis_tail, a_hypothesis, names_part, hypotheses_part};
ghost use Rattle.layout.specs.Cuts.{left, Ends};
ghost use Rattle.layout.specs.Repeats.{Repeats};

use stream::walk::{is_stub, string_stop, u16_at, u32_at};

/// The bytes of an offset or an end: `address_size` of the definitions.
pub const ADDRESS: usize = 4;

/// After so many bytes.
pub fn after_part(bytes: &[u8], size: usize) -> Option<&[u8]>
    ensures value { option_copied result ≡ left (part size bytes.now) }
    ensures ends { IfSome result (λ rest. Ends bytes.now rest.now) }
{
    bytes.get(size..)
}

/// After a count of 32 bits and so many times `size` bytes.
pub fn after_counted(bytes: &[u8], size: usize) -> Option<&[u8]>
    requires { size ≤ 10 }
    ensures value { option_copied result ≡ left (counted size bytes.now) }
    ensures ends { IfSome result (λ rest. Ends bytes.now rest.now) }
{
    if bytes.len() < 4 {
        return None;
    }
    after_part(bytes, 4 + size * u32_at(bytes, 0))
}

/// After a string.
pub fn after_string(bytes: &[u8]) -> Option<&[u8]>
    ensures value { option_copied result ≡ left (a_string bytes.now) }
    ensures ends { IfSome result (λ rest. Ends bytes.now rest.now) }
{
    after_counted(bytes, 1)
}

/// After a stub string.
pub fn after_stub(bytes: &[u8]) -> Option<&[u8]>
    ensures value { option_copied result ≡ left (a_stub bytes.now) }
    ensures ends { IfSome result (λ rest. Ends bytes.now rest.now) }
{
    let stop = string_stop(bytes, 0, bytes.len())?;
    if !is_stub(&bytes[4..stop]) {
        return None;
    }
    after_part(bytes, stop)
}

/// After an expression: typecode, fragments, rump.
pub fn after_expression(bytes: &[u8]) -> Option<&[u8]>
    ensures value { option_copied result ≡ left (an_expression bytes.now) }
    ensures ends { IfSome result (λ rest. Ends bytes.now rest.now) }
{
    let fragments = after_string(bytes)?;
    let rump = after_counted(fragments, 10)?;
    after_part(rump, 8)
}

/// After the offset, the variable and the typecode of a hypothesis.
fn after_float(bytes: &[u8]) -> Option<&[u8]>
    ensures { option_copied result ≡ left (hypothesis_tail 1 bytes.now) }
{
    let variable = after_part(bytes, ADDRESS)?;
    let typecode = after_part(variable, 2)?;
    after_string(typecode)
}

/// After the offset and the expression of a hypothesis.
fn after_essential(bytes: &[u8]) -> Option<&[u8]>
    ensures { option_copied result ≡ left (hypothesis_tail 2 bytes.now) }
{
    let expression = after_part(bytes, ADDRESS)?;
    after_expression(expression)
}

/// After what follows the tag of a hypothesis.
fn after_tag(bytes: &[u8], tag: usize) -> Option<&[u8]>
    ensures { option_copied result ≡ left (hypothesis_tail tag bytes.now) }
{
    match tag {
        1 => after_float(bytes),
        2 => after_essential(bytes),
        _ => None,
    }
}

/// After a hypothesis.
pub fn after_hypothesis(bytes: &[u8]) -> Option<&[u8]>
    ensures value { option_copied result ≡ left (a_hypothesis bytes.now) }
    ensures ends { IfSome result (λ rest. Ends bytes.now rest.now) }
{
    let rest = after_part(bytes, 2)?;
    after_tag(rest, u16_at(bytes, 0))
}

/// After so many parts of one kind, one after the other.
fn after_times<'a, F: Fn(&'a [u8]) -> Option<&'a [u8]>>(
    bytes: &'a [u8],
    count: usize,
    after: F,
) -> Option<&'a [u8]>
    requires { F.IsAlwaysCallable after }
    ensures { Repeats (F.post after) count bytes.entry result }
{
    let mut rest = bytes;
    for _ in 0..count {
        rest = after(rest)?;
    }
    Some(rest)
}

/// After so many strings.
pub fn after_strings(bytes: &[u8], count: usize) -> Option<&[u8]>
    ensures value { option_copied result ≡ left (times count a_string bytes.now) }
    ensures ends { IfSome result (λ rest. Ends bytes.now rest.now) }
{
    after_times(bytes, count, after_string)
}

/// After the count of hypotheses and the hypotheses.
pub fn after_hypotheses(bytes: &[u8]) -> Option<&[u8]>
    ensures value { option_copied result ≡ left (hypotheses_part bytes.now) }
    ensures ends { IfSome result (λ rest. Ends bytes.now rest.now) }
{
    let rest = after_part(bytes, 4)?;
    after_times(rest, u32_at(bytes, 0), after_hypothesis)
}

/// After V, M, so many variable strings and the pool.
pub fn after_names(bytes: &[u8]) -> Option<&[u8]>
    ensures value { option_copied result ≡ left (names_part bytes.now) }
    ensures ends { IfSome result (λ rest. Ends bytes.now rest.now) }
{
    let rest = after_part(bytes, 4)?;
    let pool = after_strings(rest, u16_at(bytes, 0))?;
    after_string(pool)
}
