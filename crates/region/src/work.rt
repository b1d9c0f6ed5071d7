// The result of an operation, as far as it is drawn: band by band, from the top down.
ghost use Rattle.boxes.specs.Regions.{hull};
ghost use Rattle.boxes.specs.Strips.{nothing, stretched};
ghost use Rattle.region.specs.Listed.{listed};
ghost use Rattle.region.specs.Rows.{spans};
ghost use Rattle.region.specs.Works.{Adds, Holds};
ghost use Rattle.std.specs.Prelude.{◌≡◌, ◌<◌, [], ◌∷◌, length, MatchOption};

use crate::drawn::Drawn;
use crate::few::Few;
use boxes::CellBox;

// What is drawn, unless it has come to more than 32 boxes. `hull` is the box around them all.
#[derive(Clone, Copy)]
pub struct Work {
    pub drawn: Option<Drawn>,
    pub hull: CellBox,
}

// The least box over two.
fn hull_of(a: CellBox, b: CellBox) -> CellBox
    ensures { result ≡ hull a b }
{
    CellBox {
        left: a.left.min(b.left),
        top: a.top.min(b.top),
        right: a.right.max(b.right),
        bottom: a.bottom.max(b.bottom),
    }
}

impl Work {
    // Nothing is drawn yet.
    pub(crate) fn new() -> Work
        ensures { Holds result [] × (result.hull ≡ nothing) }
    {
        Work {
            drawn: Some(Drawn::new()),
            hull: CellBox {
                left: 256,
                top: 256,
                right: 0,
                bottom: 0,
            },
        }
    }

    // Draws the rows from `top` up to `bottom`, which have cells, unless there is no room any more.
    fn put(&mut self, top: u16, bottom: u16, runs: &[CellBox])
        requires { 0 < length runs.now }
        ensures adds { Adds top bottom (spans runs.now) self.old self.new }
        ensures hull { self.new.hull ≡ self.old.hull }
    {
        let Some(drawn) = &mut self.drawn else {
            return;
        };
        if drawn.goes_on(top, runs) {
            drawn.grow(bottom);
        } else if runs.len() <= drawn.boxes.room() {
            drawn.push(top, bottom, runs);
        } else {
            self.drawn = None;
        }
    }

    // Adds the rows from `top` up to `bottom`, each with the same runs. These stay three parameters: a
    // struct of them would be made for each call, and taken apart again for the boxes.
    #[tactic(auto, using(crate::proofs::Holding::adds_none, crate::proofs::Holding::stretched_none))]
    pub(crate) fn add(&mut self, top: u16, bottom: u16, runs: &[CellBox])
        ensures adds { Adds top bottom (spans runs.now) self.old self.new }
        ensures hull { self.new.hull ≡ stretched top bottom (spans runs.now) self.old.hull }
    {
        let (Some(first), Some(last)) = (runs.first(), runs.last()) else {
            return;
        };
        let around = CellBox {
            left: first.left,
            top,
            right: last.right,
            bottom,
        };
        self.hull = hull_of(self.hull, around);
        self.put(top, bottom, runs);
    }

    // The boxes of the region: those drawn, or the one around them all where they are too many.
    pub(crate) fn boxes(&self) -> Few<32>
        ensures { MatchOption self.now.drawn (listed result ≡ self.now.hull ∷ []) (λ d. result ≡ d.boxes) }
    {
        match &self.drawn {
            Some(drawn) => drawn.boxes,
            None => Few::one(self.hull),
        }
    }
}
