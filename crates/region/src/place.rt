// A sweep goes down two lists of boxes at once, band by band.
ghost use Rattle.region.specs.Leads.{first_band, has_top};
ghost use Rattle.std.specs.Prelude.{◌≡◌, ◌≤◌, ◌++◌, length};
ghost use Rattle.std.specs.List.{prefix_len};

use boxes::CellBox;

// Where a sweep stands in a list: at a band, with the boxes below it. Together they are the boxes that
// do not end above the row at hand; there are none where the list has come to its end.
#[derive(Clone, Copy)]
pub struct Place<'a> {
    band: &'a [CellBox],
    below: &'a [CellBox],
    ghost whole: { band.now ≡ first_band (band.now ++ below.now) },
}

// How many boxes at the front of a list begin in row `top`.
fn same_top(boxes: &[CellBox], top: u16) -> usize
    ensures few { result ≤ length boxes.now }
    ensures count { result ≡ prefix_len (has_top top) boxes.now }
{
    boxes.iter().take_while(|b| b.top == top).count()
}

impl<'a> Place<'a> {
    ghost use Rattle.region.specs.Places.{past_of, remaining, shown_boxes, turn_of};

    // At the first band of a list.
    pub(crate) fn new(boxes: &'a [CellBox]) -> Place<'a>
        ensures { remaining result ≡ boxes.now }
    {
        let size = match boxes {
            [first, ..] => same_top(boxes, first.top),
            [] => 0,
        };
        let (band, below) = boxes.split_at(size);
        Place { band, below }
    }

    // The first row below `y` in which the list may have other cells; 256 where there is none.
    pub(crate) fn turn(self, y: u16) -> u16
        ensures { result ≡ turn_of (remaining self.entry) y }
    {
        match self.band {
            [b, ..] if y < b.top => b.top,
            [b, ..] => b.bottom,
            [] => 256,
        }
    }

    // The boxes that have cells in row `y`.
    pub(crate) fn shown(self, y: u16) -> &'a [CellBox]
        ensures { result.now ≡ shown_boxes (remaining self.entry) y }
    {
        match self.band {
            [b, ..] if b.top <= y => self.band,
            _ => &[],
        }
    }

    // Goes on to the next band where this one ends at row `y`.
    pub(crate) fn past(self, y: u16) -> Place<'a>
        ensures { remaining result ≡ past_of (remaining self.entry) y }
    {
        match self.band {
            [b, ..] if b.bottom <= y => Place::new(self.below),
            _ => self,
        }
    }
}
