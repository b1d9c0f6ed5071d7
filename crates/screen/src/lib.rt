// Screens: their sides, rectangles, and painting on their cells.
#![tactic(auto)]

mod corner;
mod paint;
mod rect;
mod sides;

pub use corner::Corner;
pub use paint::{copy, fill, overlapping, put};
pub use rect::Rect;
pub use sides::Sides;
