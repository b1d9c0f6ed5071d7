// A number as the console writes it, printed in place.
ghost use Rattle.notation.specs.Decimal.{decimal};
ghost use Rattle.std.specs.Prelude.{Some};

use std::fmt;

// A number that is printed as the console writes it.
#[derive(Clone, Copy)]
pub struct NumberText(pub usize);

impl fmt::Display for NumberText {
    ghost output = { λ t. Some (decimal t.0) };

    #[tactic(auto, using(crate::proofs::Printed::printed_decimal))]
    fn fmt<W: fmt::Write>(&self, f: &mut fmt::Formatter<W>) -> fmt::Result {
        let &NumberText(number) = self;
        write!(f, "{number}")
    }
}
