// A set of cells of the largest screen, which has 256 × 256 cells.
ghost use Rattle.boxes.specs.Banded.{Banded};
ghost use Rattle.region.specs.Listed.{listed};

mod methods;

use crate::few::Few;
pub use methods::two_squares;

// Its boxes, in banded form. A set whose banded form has more than 32 boxes is kept as its covering box.
#[derive(Clone, Copy)]
pub struct Region {
    boxes: Few<32>,
    ghost banded: { ∥ Banded (listed boxes) ∥₁ },
}
