// What an operation has drawn: the boxes of bands, from the top down.
ghost use Rattle.region.specs.Listed.{listed};
ghost use Rattle.std.specs.Prelude.{◌≤◌, length};

mod methods;

use crate::few::Few;

// Those from `start` on are the last band's: a slice of the boxes cannot stand beside them.
#[derive(Clone, Copy)]
pub struct Drawn {
    pub boxes: Few<32>,
    start: usize,
    ghost order: { start ≤ length (listed boxes) },
}
