// A few boxes, in the value itself: no memory is asked for.
ghost use Rattle.std.specs.Prelude.{◌≤◌};

mod methods;

use boxes::CellBox;

// At most N boxes, in order: the first `count` of `boxes`. It can be copied, as a region can, and the
// library's `ArrayVec` cannot.
#[derive(Clone, Copy)]
pub struct Few<const N: usize> {
    boxes: [CellBox; N],
    count: usize,
    ghost fits: { count ≤ N },
}
