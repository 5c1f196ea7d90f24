// Where the entries of the stack start, and entries moved down.
// The flag of a typecode alone tells where an entry starts.
ghost use Rattle.std.specs.Prelude.{◌≡◌, ℕ, ◌<◌, ◌≤◌, IfSome, IfNone, slice_index, length};
ghost use Rattle.unify.specs.Entries.{flag, last_flag};
ghost use Rattle.unify.specs.Pushes.{Moved};

// what a typecode has added to its atom
pub const FLAG: u32 = 2147483648;

// The place of the last typecode, if there is one.
fn last_typecode(stack: &[u32]) -> Option<usize>
    ensures none { IfNone result ((j : ℕ) → j < length stack.now → slice_index stack.now j < flag) }
    ensures here { IfSome result (λ i. (i < length stack.now) × (flag ≤ slice_index stack.now i)) }
    ensures last { IfSome result (λ i. (j : ℕ) → i < j → j < length stack.now → slice_index stack.now j < flag) }
{
    stack.iter().rposition(|&x| FLAG <= x)
}

/// Where the entry starts that stops at `top`.
pub fn entry_start(stack: &[u32], top: usize) -> usize
    requires { top ≤ length stack.now }
    ensures { result ≡ last_flag stack.now top }
{
    last_typecode(&stack[..top]).unwrap_or(0)
}

/// Moves the words from `from` up to `to` down to `base`: the place after them.
pub fn move_down(stack: &mut [u32], base: usize, from: usize, to: usize) -> usize
    requires { (base ≤ from) × (from ≤ to) × (to ≤ length stack.old) }
    ensures { Moved stack.old stack.new base from to result }
{
    stack.copy_within(from..to, base);
    base + (to - from)
}
