// A box of cells, by its edges.
ghost use Rattle.boxes.specs.Banded.{Proper};
ghost use Rattle.boxes.specs.Cells.{AsRect, SameCells, in_box, none, of_rect};
ghost use Rattle.std.specs.Prelude.{◌≡◌, ℕ, true, ◌&&◌, Decides, MatchOption};

use screen::{Rect, Sides};

// The cells with `left` ≤ x < `right` and `top` ≤ y < `bottom`.
#[derive(Clone, Copy, PartialEq, Eq, Hash, Debug, Default)]
pub struct CellBox {
    pub left: u16,
    pub top: u16,
    pub right: u16,
    pub bottom: u16,
}

impl CellBox {
    // The rectangle's cells on the largest screen, if there are any.
    pub fn of_rect(rect: Rect) -> Option<CellBox>
        ensures { MatchOption result (SameCells (of_rect rect) none) (λ b. Proper b × SameCells (in_box b) (of_rect rect)) }
    {
        let part = rect.cut(Sides::LARGEST);
        if part.is_empty() {
            return None;
        }
        Some(CellBox {
            left: part.x,
            top: part.y,
            right: part.x + part.w,
            bottom: part.y + part.h,
        })
    }

    // Whether the cell (x, y) is one of the box's.
    pub fn has(&self, x: u16, y: u16) -> bool
        ensures { result ≡ in_box self.now x y }
    {
        self.left <= x && x < self.right && self.top <= y && y < self.bottom
    }

    // Whether the two have a cell in common.
    pub fn meets(&self, other: &CellBox) -> bool
        ensures { Decides result ((x y : ℕ) × (in_box self.now x y && in_box other.now x y) ≡ true) }
    {
        self.left.max(other.left) < self.right.min(other.right)
            && self.top.max(other.top) < self.bottom.min(other.bottom)
    }
}

// The box as a rectangle.
impl From<CellBox> for Rect {
    ghost from_gives = { AsRect };

    fn from(b: CellBox) -> Rect {
        Rect {
            x: b.left,
            y: b.top,
            w: b.right.saturating_sub(b.left),
            h: b.bottom.saturating_sub(b.top),
        }
    }
}
