// The boxes of a region in the console's notation.
ghost use Rattle.notation.specs.Writes.{Writes};
ghost use Rattle.session.specs.Boxes.{box_words, boxes_words};
ghost use Rattle.std.specs.Prelude.{Some};

use boxes::CellBox;
use notation::NumberText;
use screen::Rect;
use std::alloc::{AllocError, Global};
use std::fmt;

// A box behind a space: its corner, its width and its height.
#[derive(Clone, Copy)]
struct BoxText(CellBox);

impl fmt::Display for BoxText {
    ghost output = { λ t. Some (box_words t.0) };

    fn fmt<W: fmt::Write>(&self, f: &mut fmt::Formatter<W>) -> fmt::Result {
        let Rect { x, y, w, h } = Rect::from(self.0);
        let (x, y) = (NumberText(usize::from(x)), NumberText(usize::from(y)));
        let (w, h) = (NumberText(usize::from(w)), NumberText(usize::from(h)));
        write!(f, " {x},{y},{w},{h}")
    }
}

// How many boxes there are, and then each.
#[derive(Clone, Copy)]
struct BoxesText<'a>(&'a [CellBox]);

impl fmt::Display for BoxesText<'_> {
    ghost output = { λ t. Some (boxes_words t.0.now) };

    fn fmt<W: fmt::Write>(&self, f: &mut fmt::Formatter<W>) -> fmt::Result {
        write!(f, "{}", NumberText(self.0.len()))?;
        for &cells in self.0 {
            write!(f, "{}", BoxText(cells))?;
        }
        Ok(())
    }
}

// The boxes in words.
pub fn say_boxes(heap: Global, boxes: &[CellBox]) -> Result<String, AllocError>
    ensures { Writes result (boxes_words boxes.now) }
{
    BoxesText(boxes).to_string(heap)
}
