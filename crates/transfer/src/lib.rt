// Whole runs over any line: lists of calls, and a byte string carried from end to end.
#![tactic(auto)]

mod calls;
mod trip;

pub use calls::{Answer, Call, converse, make};
pub use trip::carry;
