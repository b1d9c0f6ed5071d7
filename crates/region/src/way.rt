// The way that cells are moved: by the distance from one corner to another.
ghost use Rattle.boxes.specs.Banded.{Proper};
ghost use Rattle.boxes.specs.Moves.{staying};
ghost use Rattle.region.specs.Shifts.{has_cells, move_onto};
ghost use Rattle.std.specs.Bool.{then_some};
ghost use Rattle.std.specs.Prelude.{◌≡◌, ◌+◌, ◌-◌, min, IfSome};

use boxes::CellBox;
use screen::Corner;

#[derive(Clone, Copy, PartialEq, Eq, Hash, Debug)]
pub struct Way {
    pub from: Corner,
    pub to: Corner,
}

// Where a column or a row comes to, on the largest screen.
fn moved(n: u16, from: u16, to: u16) -> u16
    ensures { result ≡ min 256 (n + to - from) }
{
    let far = n.saturating_add(to.saturating_sub(from));
    far.saturating_sub(from.saturating_sub(to)).min(256)
}

impl Way {
    // The box of the cells that stay on the largest screen, if any do.
    pub(crate) fn staying(self) -> Option<CellBox>
        ensures value { result ≡ then_some (has_cells (staying self.from self.to)) (staying self.from self.to) }
        ensures proper { IfSome result Proper }
    {
        let Way { from, to } = self;
        let b = CellBox {
            left: from.x.saturating_sub(to.x),
            top: from.y.saturating_sub(to.y),
            right: 256u16.saturating_sub(to.x.saturating_sub(from.x)),
            bottom: 256u16.saturating_sub(to.y.saturating_sub(from.y)),
        };
        (b.left < b.right && b.top < b.bottom).then_some(b)
    }

    // Where a box comes to, on the largest screen.
    pub(crate) fn moved(self, b: CellBox) -> CellBox
        ensures { result ≡ move_onto self.from self.to b }
    {
        let Way { from, to } = self;
        CellBox {
            left: moved(b.left, from.x, to.x),
            top: moved(b.top, from.y, to.y),
            right: moved(b.right, from.x, to.x),
            bottom: moved(b.bottom, from.y, to.y),
        }
    }
}
