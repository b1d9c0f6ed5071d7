// What regions do. A rectangle is a region too.
ghost use Rattle.boxes.specs.Banded.{Banded, Proper};
ghost use Rattle.boxes.specs.Cells.{SameCells, both, but_not, either, has, in_box, none, of_rect, on_largest, shifted};
ghost use Rattle.boxes.specs.Laws.{Laws, OneForm};
ghost use Rattle.boxes.specs.Regions.{RegionOf, Worked, box_at};
ghost use Rattle.region.specs.Held.{AsRegion, held};
ghost use Rattle.region.specs.Sets.{kept};
ghost use Rattle.screen.specs.Rects.{holds, on_screen};
ghost use Rattle.std.specs.Prelude.{◌≡◌, ℕ, ◌≤◌, true, false, ◌&&◌, [], ◌∷◌, length, Any, Decides, IfSome};
ghost use Rattle.std.specs.Option.{option_to_list};

use super::Region;
use crate::few::Few;
use crate::operation::Operation;
use crate::sweep::sweep;
use crate::way::Way;
use boxes::CellBox;
use screen::{Corner, Rect, Sides};

// The region of one box.
fn single(b: CellBox) -> Region
    requires { Proper b }
    ensures { held result ≡ b ∷ [] }
{
    Region { boxes: Few::one(b) }
}

// The region of a box, or the empty one.
fn of_box(b: Option<CellBox>) -> Region
    requires { IfSome b Proper }
    ensures { held result ≡ option_to_list b }
{
    match b {
        Some(b) => single(b),
        None => Region::empty(),
    }
}

// Whether one of the boxes has a cell in common with another box.
fn any_meets(boxes: &[CellBox], other: &CellBox) -> bool
    ensures { Decides result (Any (λ b. (x y : ℕ) × (in_box b x y && in_box other.now x y) ≡ true) boxes.now) }
{
    boxes.iter().any(|b| b.meets(other))
}

impl Region {
    // No cells.
    pub fn empty() -> Region
        ensures boxes { held result ≡ [] }
        ensures cells { SameCells (has (held result)) none }
    {
        Region { boxes: Few::new() }
    }

    // The boxes, in order.
    pub fn boxes(&self) -> &[CellBox]
        ensures boxes { result.now ≡ held self.now }
        ensures banded { Banded result.now }
        ensures few { length result.now ≤ 32 }
        ensures laws { Laws }
    {
        self.boxes.as_slice()
    }

    // What the operation keeps of two regions.
    pub fn combine(&self, operation: Operation, other: &Region) -> Region
        ensures { RegionOf (kept operation (held self.now) (held other.now)) (held result) }
    {
        let work = sweep(operation, self.boxes(), other.boxes());
        Region {
            boxes: work.boxes(),
        }
    }

    // The cells of either region.
    pub fn join(&self, other: &Region) -> Region
        ensures { RegionOf (either (held self.now) (held other.now)) (held result) }
    {
        self.combine(Operation::Join, other)
    }

    // The cells of both regions.
    pub fn cut(&self, other: &Region) -> Region
        ensures { RegionOf (both (held self.now) (held other.now)) (held result) }
    {
        self.combine(Operation::Cut, other)
    }

    // The cells that are not the other's.
    pub fn take_away(&self, other: &Region) -> Region
        ensures { RegionOf (but_not (held self.now) (held other.now)) (held result) }
    {
        self.combine(Operation::Away, other)
    }

    // The cells of a screen with these sides, as far as they are on the largest.
    pub fn whole(sides: Sides) -> Region
        ensures region { RegionOf (λ x y. on_screen sides.width sides.height x y && on_largest x y) (held result) }
        ensures exact { SameCells (has (held result)) (λ x y. on_screen sides.width sides.height x y && on_largest x y) }
    {
        Region::from(sides.whole())
    }

    // The cells, moved by the distance from one corner to another. A cell that would leave the largest
    // screen on any side is dropped; the corners may be any. A shift never adds boxes.
    pub fn shift(&self, from: Corner, to: Corner) -> Region
        ensures region { RegionOf (shifted from to (held self.now)) (held result) }
        ensures exact { SameCells (has (held result)) (shifted from to (held self.now)) }
    {
        let way = Way { from, to };
        let mut part = self.cut(&of_box(way.staying()));
        part.boxes.shift(way);
        part
    }

    pub fn is_empty(&self) -> bool
        ensures { Decides result (SameCells (has (held self.now)) none) }
    {
        self.boxes().is_empty()
    }

    // Whether a cell of the region is one of the rectangle's.
    pub fn meets(&self, rect: Rect) -> bool
        ensures { Decides result ((x y : ℕ) × (has (held self.now) x y && holds rect x y) ≡ true) }
    {
        match CellBox::of_rect(rect) {
            Some(b) => any_meets(self.boxes(), &b),
            None => false,
        }
    }

    // Whether the two have the same cells. There is one banded form of a set, so their boxes tell.
    pub fn same(&self, other: &Region) -> bool
        ensures cells { Decides result (SameCells (has (held self.now)) (has (held other.now))) }
        ensures form { OneForm }
    {
        self.boxes() == other.boxes()
    }
}

// The cells of a rectangle that are on the largest screen.
impl From<Rect> for Region {
    ghost from_gives = { AsRegion };

    fn from(rect: Rect) -> Region {
        of_box(CellBox::of_rect(rect))
    }
}

// Two squares that overlap at a corner.
pub fn two_squares() -> Region
    ensures boxes { held result ≡ box_at 0 0 2 1 ∷ box_at 0 1 3 1 ∷ box_at 1 2 2 1 ∷ [] }
    ensures worked { Worked }
{
    let first = Region::from(Rect {
        x: 0,
        y: 0,
        w: 2,
        h: 2,
    });
    let second = Region::from(Rect {
        x: 1,
        y: 1,
        w: 2,
        h: 2,
    });
    first.join(&second)
}
