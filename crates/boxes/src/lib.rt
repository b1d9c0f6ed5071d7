// Boxes of cells, and the banded form of lists of boxes.
#![tactic(auto)]

mod cell_box;

pub use cell_box::CellBox;
