// Why a call refuses. A refusal has a number, and what was asked for has not happened: everything
// is as it was.
#![tactic(auto)]

ghost use Rattle.fault.specs.Refusals.{number_of};
ghost use Rattle.std.specs.Prelude.{◌≡◌};

// Each with the number by which it is reported.
#[derive(Clone, Copy, PartialEq, Eq, Hash, Debug)]
pub enum Refusal {
    // Memory for a screen does not fit its sides.
    Size = 1,
    // Memory that was handed over or lent has a length out of range.
    Memory = 2,
    // A block of cells is not as long as its rectangle has cells.
    Block = 3,
    // The source of a copy is not inside the screen.
    Source = 4,
    // Bytes wait on a line that has to be empty.
    Waiting = 7,
}

impl Refusal {
    // The number by which the refusal is reported; no other refusal has it. A method, so that a caller
    // reads which number it is.
    pub fn number(self) -> u8
        ensures value { result ≡ number_of self }
        ensures alone { (other : Refusal) → number_of other ≡ result → other ≡ self }
    {
        self as u8
    }
}

// A refusal that gives back what was handed over with the call.
#[derive(Drop)]
pub struct Rejected<T> {
    pub refusal: Refusal,
    pub value: T,
}
