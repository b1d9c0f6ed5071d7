// A line that holds bytes back, and hands them to the line below only when it is flushed.
ghost use Rattle.line.specs.declared.batch.TheConstants.{MOST};
ghost use Rattle.std.specs.Prelude.{◌≤◌, length};

mod methods;

use arrayvec::ArrayVec;

// How many bytes a batch holds at most.
const MOST: usize = 32;

// The bytes of `held` are held back, oldest first.
#[derive(Drop)]
pub struct Batch<L> {
    below: L,
    held: ArrayVec<u8, MOST>,
    ghost few: { length held.items ≤ MOST },
}
