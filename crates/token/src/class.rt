// The class of a byte, from a table whose rule is proved once over the whole table.
// 0 neither white space nor printable, 1 white space, 2 `$`, 3 another printable byte, 4 a byte of a label.
ghost use Rattle.std.specs.Prelude.{◌≡◌};
ghost use Rattle.token.specs.Class.{class};

/// The class of a byte that no text may have, and of white space.
pub const BAD: u8 = 0;

pub const WHITE: u8 = 1;

/// The least classes of a byte of a math token and of one of a label.
pub const MATH: u8 = 3;

pub const LABEL: u8 = 4;

static CLASS: [u8; 256] = [
    0, 0, 0, 0, 0, 0, 0, 0, 0, 1, // tab
    1, // line feed
    0, 1, // form feed
    1, // carriage return
    0, 0, 0, 0, 0, 0, 0, 0, 0, 0, 0, 0, 0, 0, 0, 0, 0, 0, 1, // space
    3, // `!`, the first printable byte
    3, 3, 2, // `$`
    3, 3, 3, 3, 3, 3, 3, 3, 4, // `-`
    4, // `.`
    3, 4, // `0`
    4, 4, 4, 4, 4, 4, 4, 4, 4, // `9`
    3, 3, 3, 3, 3, 3, 3, 4, // `A`
    4, 4, 4, 4, 4, 4, 4, 4, 4, 4, 4, 4, 4, 4, 4, 4, 4, 4, 4, 4, 4, 4, 4, 4, 4, // `Z`
    3, 3, 3, 3, 4, // `_`
    3, 4, // `a`
    4, 4, 4, 4, 4, 4, 4, 4, 4, 4, 4, 4, 4, 4, 4, 4, 4, 4, 4, 4, 4, 4, 4, 4, 4, // `z`
    3, 3, 3, 3, // `~`, the last printable byte
    0, // delete
    0, 0, 0, 0, 0, 0, 0, 0, 0, 0, 0, 0, 0, 0, 0, 0, 0, 0, 0, 0, 0, 0, 0, 0, 0, 0, 0, 0, 0, 0, 0, 0,
    0, 0, 0, 0, 0, 0, 0, 0, 0, 0, 0, 0, 0, 0, 0, 0, 0, 0, 0, 0, 0, 0, 0, 0, 0, 0, 0, 0, 0, 0, 0, 0,
    0, 0, 0, 0, 0, 0, 0, 0, 0, 0, 0, 0, 0, 0, 0, 0, 0, 0, 0, 0, 0, 0, 0, 0, 0, 0, 0, 0, 0, 0, 0, 0,
    0, 0, 0, 0, 0, 0, 0, 0, 0, 0, 0, 0, 0, 0, 0, 0, 0, 0, 0, 0, 0, 0, 0, 0, 0, 0, 0, 0, 0, 0, 0, 0,
];

/// The class of a byte.
pub fn class_of(b: u8) -> u8
    ensures { result ≡ class b }
{
    CLASS[b as usize]
}
