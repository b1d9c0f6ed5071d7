// Regions: sets of cells, as at most 32 boxes in banded form.
#![tactic(auto)]

mod drawn;
mod few;
mod operation;
mod place;
mod regions;
mod row;
mod sweep;
mod way;
mod work;

pub use operation::Operation;
pub use regions::{Region, two_squares};
pub use screen::Corner;
