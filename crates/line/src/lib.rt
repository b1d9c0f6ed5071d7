// Lines: each carries bytes one way, in order.
#![tactic(auto)]

mod batch;
mod lines;
mod ring;

pub use batch::Batch;
pub use lines::Line;
pub use ring::Ring;
