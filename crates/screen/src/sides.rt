// The sides of a screen, which are any numbers of sixteen bits.
ghost use Rattle.screen.specs.Rects.{holds, on_screen};
ghost use Rattle.std.specs.Prelude.{◌≡◌, ℕ, ◌+◌, ◌*◌, ◌<◌, ◌≤◌};

use crate::rect::Rect;
use std::ops::Range;

// A screen has `width` columns and `height` rows of cells. They lie row by row from the top left.
#[derive(Clone, Copy, PartialEq, Eq, Hash, Debug)]
pub struct Sides {
    pub width: u16,
    pub height: u16,
}

impl Sides {
    // The sides of the largest screen.
    pub const LARGEST: Sides = Sides {
        width: 256,
        height: 256,
    };

    // The number of cells.
    pub fn area(self) -> usize
        ensures { result ≡ self.width * self.height }
    {
        usize::from(self.width) * usize::from(self.height)
    }

    // The place of the cell (x, y).
    pub fn place(self, x: u16, y: u16) -> usize
        ensures { result ≡ y * self.width + x }
    {
        usize::from(y) * usize::from(self.width) + usize::from(x)
    }

    // The places of the `count` cells of the row `y` from the column `x` on.
    pub(crate) fn run(self, x: u16, y: u16, count: u16) -> Range<usize>
        requires { (x + count ≤ self.width) × (y < self.height) }
        ensures start { result.start ≡ y * self.width + x }
        ensures end { result.end ≡ result.start + count }
        ensures within { result.end ≤ self.width * self.height }
    {
        let start = self.place(x, y);
        start..start + usize::from(count)
    }

    // The rectangle of all cells.
    pub fn whole(self) -> Rect
        ensures value { result ≡ record { x = 0; y = 0; w = self.width; h = self.height } }
        ensures cells { (x y : ℕ) → holds result x y ≡ on_screen self.width self.height x y }
    {
        Rect {
            x: 0,
            y: 0,
            w: self.width,
            h: self.height,
        }
    }
}
