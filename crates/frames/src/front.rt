// The front of an assertion's record, after its length: kind, offset, label, V, M.
// The words of the statement's row say all of it but the two numbers.
ghost use Rattle.std.specs.Prelude.{◌<◌, ◌^◌};
ghost use Rattle.frames.specs.Front.{CanFront, Fronts};

use crate::Frame;
use forms::{names, words};
use stream::write::{put_u16, put_u32};

impl Frame {
    /// Stores it.
    pub fn put_front(self, text: &[u8], work: &[u32], n: usize, buf: &mut [u8], at: usize) -> usize
        requires { CanFront text.now work.now n self.row.0 × (at < 2 ^ 61) }
        ensures { Fronts text.now work.now n self.row.0 self.size self.mandatory buf.old buf.new at result }
    {
        let kind = words::statement_word(work, self.row, area::KIND);
        let offset = words::statement_word(work, self.row, area::AT);
        let label = words::label_word(work, self.row);
        let offset_at = put_u16(buf, at, (kind - 4) as u64);
        let label_at = put_u32(buf, offset_at, offset as u64);
        let size_at = names::put_name(text, work, n, buf, label_at, label);
        let mandatory_at = put_u16(buf, size_at, self.size as u64);
        put_u16(buf, mandatory_at, self.mandatory as u64)
    }
}
