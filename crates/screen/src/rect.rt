// Rectangles of cells.
ghost use Rattle.screen.specs.Rects.{Common, Cut, Least, common, cover, holds, is_empty, is_inside, is_narrow, within};
ghost use Rattle.std.specs.Prelude.{◌≡◌, ◌+◌, ◌-◌, ◌*◌, ◌<◌, ◌≤◌, min, max, false, if◌then◌else◌, Some, None, MatchOption};

use crate::sides::Sides;

// The cells from column `x` and row `y` on, `w` columns and `h` rows of them.
#[derive(Clone, Copy, PartialEq, Eq, Hash, Debug)]
pub struct Rect {
    pub x: u16,
    pub y: u16,
    pub w: u16,
    pub h: u16,
}

impl Rect {
    // The rectangle that stands for no cells.
    pub const NONE: Rect = Rect {
        x: 0,
        y: 0,
        w: 0,
        h: 0,
    };

    pub fn is_empty(&self) -> bool
        ensures { result ≡ is_empty self.now }
    {
        self.w == 0 || self.h == 0
    }

    // Whether the cell (x, y) is one of the rectangle's.
    pub fn has(&self, x: u16, y: u16) -> bool
        ensures { result ≡ holds self.now x y }
    {
        spans(self.x, self.w, x) && spans(self.y, self.h, y)
    }

    // Whether every cell is on a screen with these sides.
    pub fn inside(&self, sides: Sides) -> bool
        ensures { result ≡ is_inside sides self.now }
    {
        self.right() <= u32::from(sides.width) && self.bottom() <= u32::from(sides.height)
    }

    // What a screen with these sides shows of the rectangle: the corner stays, and `NONE` stands for
    // no cells.
    pub fn cut(&self, sides: Sides) -> Rect
        ensures { Cut sides self.now result }
    {
        self.cut_to(sides.whole())
    }

    // The cells that both have; `NONE` stands for no cells.
    pub fn cut_to(&self, other: Rect) -> Rect
        ensures value { result ≡ common self.now other }
        ensures cells { Common self.now other result }
    {
        let x = self.x.max(other.x);
        let y = self.y.max(other.y);
        let w = rest(self.x, self.w, x).min(rest(other.x, other.w, x));
        let h = rest(self.y, self.h, y).min(rest(other.y, other.h, y));
        if w == 0 || h == 0 {
            return Self::NONE;
        }
        Rect { x, y, w, h }
    }

    // The smallest rectangle over the cells of both; none where a side of it would pass 65,535. An
    // empty rectangle has no cells, and `NONE` stands for no cells.
    pub fn covering(self, other: Rect) -> Option<Rect>
        ensures value { result ≡ (if is_narrow (cover self other) then Some (cover self other) else None) }
        ensures least { MatchOption result (is_narrow (cover self other) ≡ false) (Least self other) }
    {
        if self.is_empty() {
            return Some(if other.is_empty() { Self::NONE } else { other });
        }
        if other.is_empty() {
            return Some(self);
        }
        hull(self, other)
    }

    // The column behind the last; it can pass 65,535.
    fn right(&self) -> u32
        ensures { result ≡ self.now.x + self.now.w }
    {
        u32::from(self.x) + u32::from(self.w)
    }

    // The row behind the last; it can pass 65,535.
    fn bottom(&self) -> u32
        ensures { result ≡ self.now.y + self.now.h }
    {
        u32::from(self.y) + u32::from(self.h)
    }
}

// The smallest rectangle over two that have cells.
fn hull(a: Rect, b: Rect) -> Option<Rect>
    requires { (is_empty a ≡ false) × (is_empty b ≡ false) }
    ensures value { result ≡ (if is_narrow (cover a b) then Some (cover a b) else None) }
    ensures least { MatchOption result (is_narrow (cover a b) ≡ false) (Least a b) }
{
    let x = a.x.min(b.x);
    let y = a.y.min(b.y);
    let w = a.right().max(b.right()) - u32::from(x);
    let h = a.bottom().max(b.bottom()) - u32::from(y);
    Some(Rect {
        x,
        y,
        w: u16::try_from(w).ok()?,
        h: u16::try_from(h).ok()?,
    })
}

// Whether `n` is one of the `count` numbers from `from` on.
fn spans(from: u16, count: u16, n: u16) -> bool
    ensures { result ≡ within from count n }
{
    from <= n && n - from < count
}

// How many of the `count` numbers from `from` on are `n` or above.
fn rest(from: u16, count: u16, n: u16) -> u16
    requires { from ≤ n }
    ensures { result ≡ from + count - n }
{
    count.saturating_sub(n - from)
}
