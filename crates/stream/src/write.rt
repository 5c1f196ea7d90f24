// Writers of bytes, numbers and strings. Each stores its bytes if all of them fit, and answers the place after them.
// Number writers store the low bytes of a wide number, so a caller owes only a bound on the place.
ghost use Rattle.std.specs.Prelude.{◌≡◌, [], ◌∷◌, ◌+◌, ◌-◌, ◌<◌, ◌^◌, length, get_or, replicate};
ghost use Rattle.paper.specs.Expressions.{raised};
ghost use Rattle.paper.specs.Records.{u16, u32, string};
ghost use Rattle.stream.specs.Wrote.{Wrote};

/// One byte.
pub fn put_byte(out: &mut [u8], at: usize, b: u8) -> usize
    requires { at + 1 < 2 ^ 64 }
    ensures { (result ≡ at + 1) × Wrote out.old out.new at result (b ∷ []) }
{
    put_bytes(out, at, &[b])
}

/// The 16 low bits of a number, low byte first.
pub fn put_u16(out: &mut [u8], at: usize, n: u64) -> usize
    requires { at + 2 < 2 ^ 64 }
    ensures { (result ≡ at + 2) × Wrote out.old out.new at result (u16 n) }
{
    put_bytes(out, at, &n.to_le_bytes()[..2])
}

/// The 32 low bits of a number, low byte first.
pub fn put_u32(out: &mut [u8], at: usize, n: u64) -> usize
    requires { at + 4 < 2 ^ 64 }
    ensures { (result ≡ at + 4) × Wrote out.old out.new at result (u32 n) }
{
    put_bytes(out, at, &n.to_le_bytes()[..4])
}

/// Bytes.
#[inline]
pub fn put_bytes(out: &mut [u8], at: usize, bytes: &[u8]) -> usize
    requires { at + length bytes.now < 2 ^ 64 }
    ensures { (result ≡ at + length bytes.now) × Wrote out.old out.new at result bytes.now }
{
    let end = at + bytes.len();
    if end <= out.len() {
        for (i, byte) in bytes.iter().enumerate() {
            out[at + i] = *byte;
        }
    }
    end
}

/// A string: its length and its bytes.
pub fn put_string(out: &mut [u8], at: usize, bytes: &[u8]) -> usize
    requires { at + 4 + length bytes.now < 2 ^ 64 }
    ensures { (result ≡ at + 4 + length bytes.now) × Wrote out.old out.new at result (string bytes.now) }
{
    let at = put_u32(out, at, bytes.len() as u64);
    put_bytes(out, at, bytes)
}

/// Bytes, the last one with 128 added.
pub fn put_raised(out: &mut [u8], at: usize, bytes: &[u8]) -> usize
    requires { (at + length bytes.now < 2 ^ 64) × (get_or bytes.now (length bytes.now - 1) 0 < 128) }
    ensures { (result ≡ at + length bytes.now) × Wrote out.old out.new at result (raised bytes.now) }
{
    let Some((last, front)) = bytes.split_last() else {
        return at;
    };
    let at = put_bytes(out, at, front);
    put_byte(out, at, *last + 128)
}

/// So many zeros.
pub fn put_zeros(out: &mut [u8], at: usize, n: usize) -> usize
    requires { at + n < 2 ^ 64 }
    ensures { (result ≡ at + n) × Wrote out.old out.new at result (replicate n 0) }
{
    let end = at + n;
    if end <= out.len() {
        out[at..end].fill(0);
    }
    end
}
