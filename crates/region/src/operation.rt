// The three operations on regions, cell by cell.
ghost use Rattle.region.specs.Sets.{keeps};
ghost use Rattle.std.specs.Prelude.{◌≡◌};

#[derive(Clone, Copy, PartialEq, Eq, Hash, Debug)]
pub enum Operation {
    Join,
    Cut,
    Away,
}

impl Operation {
    // Whether a cell stays that is in the first region, and in the second, or not.
    pub(crate) fn keep(self, first: bool, second: bool) -> bool
        ensures { result ≡ keeps self first second }
    {
        match self {
            Operation::Join => first || second,
            Operation::Cut => first && second,
            Operation::Away => first && !second,
        }
    }
}
