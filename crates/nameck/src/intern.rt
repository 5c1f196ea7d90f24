// A name looked for among those seen so far, and added if it is new: the atom is its row.
// A name has one of n / 4 + 1 buckets by its hash. From the bucket's head each name has two links to later names, and a search
// follows one of them by the next bit of the hash, and after those by the bits of the bytes.
ghost use Rattle.std.specs.Prelude.{◌≡◌, ◌+◌, ◌-◌, ◌*◌, ◌<◌, ◌≤◌, length};
ghost use Rattle.paper.specs.Base.{sameb};
ghost use Rattle.nameck.specs.Table.{name_at, names_of, Spans, Finds, Adds, CanIntern, Interns};
ghost use Rattle.nameck.specs.Links.{hash_more, hash, piece, head_by, fork, link, Linked};

use paper::Atom;

// the word of a name that is its left link while naming; the right link is the symbol's NESTED
const LEFT: usize = 2;

/// The atom of a name, and the number of distinct names afterwards.
#[derive(Clone, Copy)]
pub struct Interned {
    pub atom: Atom,
    pub names: usize,
}

/// A name to look for: its bytes, and the number made from them.
#[derive(Clone, Copy)]
pub struct Name<'a> {
    pub bytes: &'a [u8],
    pub hashed: u64,
    ghost hashed_is: { hashed ≡ hash bytes.now },
}

impl<'a> Name<'a> {
    /// The head of its bucket.
    pub fn head(self, n: usize) -> usize
        requires { n ≤ 16777217 }
        ensures { result ≡ head_by n (hash self.entry.bytes.now) }
    {
        head_of(n, self.hashed)
    }

    /// Whether the search for it goes right at depth d: by the bits of the hash, and then by those of the bytes.
    pub fn fork_at(self, d: usize) -> bool
        ensures { result ≡ fork self.entry.bytes.now d }
    {
        if d < 32 {
            return (self.hashed >> d) % 2 == 1;
        }
        match self.bytes.get((d - 32) / 8) {
            Some(b) => (*b >> ((d - 32) % 8)) % 2 == 1,
            None => false,
        }
    }
}

/// Whether the name in a row has these bytes.
pub fn is_named(text: &[u8], work: &[u32], n: usize, row: usize, s: &[u8]) -> bool
    requires { Spans text.now work.now n (row + 1) }
    ensures { result ≡ sameb (name_at text.now work.now n row) s.now }
{
    let start = work[area::name(n, row, area::START)] as usize;
    let stop = work[area::name(n, row, area::STOP)] as usize;
    let name = &text[start..stop];
    if name.len() != s.len() {
        return false;
    }
    // most names are short: byte by byte is faster than `==`, which compares in groups
    for i in 0..s.len() {
        if name[i] != s[i] {
            return false;
        }
    }
    true
}

/// The hash of bytes with one byte more.
pub fn hash_more(h: u64, b: u8) -> u64
    requires { h < 4294967296 }
    ensures { (result ≡ hash_more h b) × (result < 4294967296) }
{
    (h + u64::from(b)) * 2654435769 % 4294967296
}

/// A number below 2^32 made from the bytes of a name.
pub fn hash_of(s: &[u8]) -> u64
    ensures { (result ≡ hash s.now) × (result < 4294967296) }
{
    let mut h = 0;
    for b in s {
        h = hash_more(h, *b);
    }
    h
}

/// The head of the bucket of a name with this hash.
pub fn head_of(n: usize, h: u64) -> usize
    requires { (n ≤ 16777217) × (h < 4294967296) }
    ensures { result ≡ head_by n h }
{
    let b = h * (n as u64 / 4 + 1) / 4294967296;
    area::bucket(n, b as usize)
}

/// The cell of the left or of the right link of a name.
pub fn link_of(n: usize, row: usize, right: bool) -> usize
    requires { (n < 4294967296) × (row < 4294967296) }
    ensures { result ≡ link n row right }
{
    if right {
        area::symbol(n, row, area::NESTED)
    } else {
        area::name(n, row, LEFT)
    }
}

/// The row of a name, or else the cell of the empty link where the search for it ends.
#[inline(always)]
pub fn find(
    text: &[u8],
    work: &[u32],
    n: usize,
    names: usize,
    name: Name<'_>,
) -> Result<usize, usize>
    requires { Spans text.now work.now n names × Linked work.now n names (name_at text.now work.now n) × (0 < n) }
    ensures { Finds text.now work.now n names name.entry.bytes.now result }
{
    let mut cell = name.head(n);
    let mut d = 0;
    while let Some(before) = work[cell].checked_sub(1) {
        let row = before as usize;
        if is_named(text, work, n, row, name.bytes) {
            return Ok(row);
        }
        cell = link_of(n, row, name.fork_at(d));
        d += 1;
    }
    Err(cell)
}

/// Makes the row of a new name: no link leads from it, and the words of its symbol are 0.
pub fn add_name(work: &mut [u32], n: usize, row: usize, start: usize, stop: usize)
    requires { (n < 4294967296) × (row < n) × (16 * n ≤ length work.old) × (start < 4294967296) × (stop < 4294967296) }
    ensures { Adds work.old work.new n row start stop }
{
    work[area::name(n, row, area::START)] = start as u32;
    work[area::name(n, row, area::STOP)] = stop as u32;
    work[area::name(n, row, LEFT)] = 0;
    let first = area::symbol(n, row, area::OWNER);
    area::clear_part(work, first, first + 7);
}

/// The atom of the name from `start` to `stop`, made anew if no earlier name has its bytes. `hashed` is the number made from them.
#[inline(always)]
pub fn intern(
    text: &[u8],
    work: &mut [u32],
    n: usize,
    names: usize,
    start: usize,
    stop: usize,
    hashed: u64,
) -> Interned
    requires { CanIntern text.now work.old n names start stop × (hashed ≡ hash (piece text.now start stop)) }
    ensures { Interns text.now work.old work.new n names start stop result.atom.0 result.names }
{
    let name = Name {
        bytes: &text[start..stop],
        hashed,
    };
    let cell = match find(text, work, n, names, name) {
        Ok(row) => {
            return Interned {
                atom: Atom(row as u32),
                names,
            };
        }
        Err(cell) => cell,
    };
    add_name(work, n, names, start, stop);
    work[cell] = names as u32 + 1;
    Interned {
        atom: Atom(names as u32),
        names: names + 1,
    }
}
