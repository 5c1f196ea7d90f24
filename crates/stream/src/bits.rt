// Rows of bits in a buffer: bit j is bit j mod 8, lowest first, of byte j/8 from a place on.
// A bit past the buffer is not set, and setting it changes nothing.
ghost use Rattle.std.specs.Prelude.{◌≡◌, ◌+◌, ◌/◌, ◌<◌, ◌^◌};
ghost use Rattle.stream.specs.Bits.{bit_at, with_bit};

/// Whether bit j of the bytes from a place on is set.
pub fn bit_at(bytes: &[u8], at: usize, j: usize) -> bool
    requires { at + j / 8 < 2 ^ 64 }
    ensures { result ≡ bit_at bytes.now at j }
{
    match bytes.get(at + j / 8) {
        Some(byte) => (*byte >> (j % 8)) % 2 == 1,
        None => false,
    }
}

/// Sets bit j of the bytes from a place on.
pub fn set_bit(bytes: &mut [u8], at: usize, j: usize)
    requires { at + j / 8 < 2 ^ 64 }
    ensures { bytes.new ≡ with_bit bytes.old at j }
{
    let i = at + j / 8;
    if i < bytes.len() {
        bytes[i] |= 1 << (j % 8);
    }
}
