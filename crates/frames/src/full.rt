// The frame of an accepted assertion, whose variables are numbered in the words.
// It is written part by part after the place of its length, and its length last. Past the buffer it is only measured.
ghost use Rattle.std.specs.Prelude.{◌<◌, ◌≤◌, ◌^◌, length};
ghost use Rattle.frames.specs.InHand.{SomeInHand, SomeWhole, PutHead, PutMiddle, PoolEnd, PutFrame};

use crate::Frame;
use disjoint::draw;
use forms::expression::Reached;
use forms::{expression, hyps, names, pool};

impl Frame {
    /// Kind, offset, label, V, M, the variables and the pool.
    pub fn put_head(self, text: &[u8], work: &[u32], n: usize, buf: &mut [u8], at: usize) -> usize
        requires { SomeInHand text.now work.now n self.row.0 self.es self.size self.mandatory × (at < 2 ^ 57) }
        ensures { PutHead text.now work.now n self.row.0 self.es self.size self.mandatory buf.old buf.new at result }
    {
        let names_at = self.put_front(text, work, n, buf, at);
        let pool_at = names::put_names(text, work, n, buf, names_at, self.size);
        pool::put_pool(text, work, n, buf, pool_at, self.es, self.row)
    }

    /// The hypotheses and the target; the place reached in the pool is its length.
    pub fn put_middle(
        self,
        text: &[u8],
        work: &[u32],
        n: usize,
        buf: &mut [u8],
        at: usize,
    ) -> Reached
        requires { SomeInHand text.now work.now n self.row.0 self.es self.size self.mandatory × (at < 2 ^ 57) }
        ensures { PutMiddle text.now work.now n self.row.0 self.es self.size self.mandatory buf.old buf.new at result.at × PoolEnd work.now n self.es self.row.0 result.to }
    {
        let target_at = hyps::put_hyps(text, work, n, buf, at, self.mandatory, self.es, self.row);
        let before = pool::stack_length(work, n, self.es);
        expression::put_spelled(text, work, n, buf, target_at, self.row, before)
    }

    /// The place after the whole record, where the buffer ends before it: its pool is as long as the place reached in it.
    pub fn end(self, text: &[u8], work: &mut [u32], n: usize, buf: &mut [u8], at: usize) -> usize
        requires { SomeWhole text.now work.old n self.row.0 self.es self.ds self.size self.mandatory × (at < 2 ^ 56) × (length buf.old ≤ at) }
        ensures { PutFrame text.now work.old work.new n self.row.0 self.es self.ds self.size self.mandatory buf.old buf.new at result }
    {
        let names_at = self.put_front(text, work, n, buf, at + 4);
        let pool_at = names::put_names(text, work, n, buf, names_at, self.size);
        let r = self.put_middle(text, work, n, buf, pool_at + 4);
        draw::put_disjoint(
            work,
            n,
            buf,
            r.at + r.to,
            self.size,
            self.mandatory,
            self.ds,
        )
    }

    /// The whole record.
    pub fn put(self, text: &[u8], work: &mut [u32], n: usize, buf: &mut [u8], at: usize) -> usize
        requires { SomeWhole text.now work.old n self.row.0 self.es self.ds self.size self.mandatory × (at < 2 ^ 56) }
        ensures { PutFrame text.now work.old work.new n self.row.0 self.es self.ds self.size self.mandatory buf.old buf.new at result }
    {
        if buf.len() <= at {
            return self.end(text, work, n, buf, at);
        }
        let start = at + 4;
        let middle_at = self.put_head(text, work, n, buf, start);
        let r = self.put_middle(text, work, n, buf, middle_at);
        let end = draw::put_disjoint(work, n, buf, r.at, self.size, self.mandatory, self.ds);
        stream::write::put_u32(buf, at, (end - start) as u64);
        end
    }
}
