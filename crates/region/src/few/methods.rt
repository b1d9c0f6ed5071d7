// What a few boxes do.
ghost use Rattle.boxes.specs.Strips.{lower_all};
ghost use Rattle.boxes.specs.declared.cell_box.CellBox.{CellBox};
ghost use Rattle.region.specs.Listed.{Gives, listed, widened, widened_last};
ghost use Rattle.region.specs.Shifts.{move_onto};
ghost use Rattle.std.specs.Prelude.{◌≡◌, ◌+◌, ◌<◌, ◌≤◌, [], ◌∷◌, ◌++◌, drop, length, map, take};

use super::Few;
use crate::way::Way;
use boxes::CellBox;

// Puts in the place of each box what `change` makes of it.
fn change_all<F: Fn(CellBox) -> CellBox>(boxes: &mut [CellBox], change: F)
    requires { F.IsAlwaysCallable change }
    ensures { (f : CellBox → CellBox) → Gives (F.post change) f → boxes.new ≡ map f boxes.old }
{
    for b in boxes.iter_mut() {
        *b = change(*b);
    }
}

// Moves the right edge of a box that is lent.
fn widen(b: &mut CellBox, right: u16)
    ensures { b.new ≡ widened right b.old }
{
    b.right = right;
}

impl<const N: usize> Few<N> {
    pub(crate) fn new() -> Self
        ensures { listed result ≡ [] }
    {
        Few {
            boxes: [CellBox::default(); N],
            count: 0,
        }
    }

    // One box.
    pub(crate) fn one(b: CellBox) -> Self
        requires { 0 < N }
        ensures { listed result ≡ b ∷ [] }
    {
        Few {
            boxes: [b; N],
            count: 1,
        }
    }

    pub(crate) fn as_slice(&self) -> &[CellBox]
        ensures { result.now ≡ listed self.now }
    {
        &self.boxes[..self.count]
    }

    pub(crate) fn len(&self) -> usize
        ensures { result ≡ length (listed self.now) }
    {
        self.count
    }

    // How many more there is room for.
    pub(crate) fn room(&self) -> usize
        ensures { length (listed self.now) + result ≡ N }
    {
        N - self.count
    }

    pub(crate) fn clear(&mut self)
        ensures { listed self.new ≡ [] }
    {
        self.count = 0;
    }

    // Adds a box behind the others.
    pub(crate) fn push(&mut self, b: CellBox)
        requires { length (listed self.old) < N }
        ensures { listed self.new ≡ listed self.old ++ b ∷ [] }
    {
        self.boxes[self.count] = b;
        self.count += 1;
    }

    // Moves the right edge of the last box.
    pub(crate) fn widen_last(&mut self, right: u16)
        ensures { listed self.new ≡ widened_last right (listed self.old) }
    {
        if self.count > 0 {
            widen(&mut self.boxes[self.count - 1], right);
        }
    }

    // Moves the bottom of the boxes from `start` on.
    pub(crate) fn lower_from(&mut self, start: usize, bottom: u16)
        requires { start ≤ length (listed self.old) }
        ensures { listed self.new ≡ take start (listed self.old) ++ lower_all bottom (drop start (listed self.old)) }
    {
        let boxes = &mut self.boxes[..self.count];
        change_all(&mut boxes[start..], |b| CellBox { bottom, ..b });
    }

    // Moves each box.
    pub(crate) fn shift(&mut self, way: Way)
        ensures { listed self.new ≡ map (move_onto way.from way.to) (listed self.old) }
    {
        change_all(&mut self.boxes[..self.count], |b| way.moved(b));
    }
}
