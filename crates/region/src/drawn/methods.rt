// How bands are added to what is drawn.
ghost use Rattle.boxes.specs.Strips.{same_runs};
ghost use Rattle.region.specs.Listed.{listed};
ghost use Rattle.region.specs.Rows.{spans};
ghost use Rattle.region.specs.Works.{Grown, Pushed, Stands, goes_on_boxes, same_run};
ghost use Rattle.std.specs.Prelude.{◌≡◌, ◌+◌, ◌≤◌, [], drop, length};

use super::Drawn;
use crate::few::Few;
use boxes::CellBox;

// Whether the two have the same left and right edges.
fn same_run(a: &CellBox, b: &CellBox) -> bool
    ensures { result ≡ same_run a.now b.now }
{
    a.left == b.left && a.right == b.right
}

// Whether the boxes of a band have the edges of the runs.
fn same_edges(band: &[CellBox], runs: &[CellBox]) -> bool
    ensures { result ≡ same_runs (spans band.now) (spans runs.now) }
{
    band.len() == runs.len() && band.iter().zip(runs).all(|(a, b)| same_run(a, b))
}

impl Drawn {
    // Nothing is drawn yet.
    pub(crate) fn new() -> Drawn
        ensures { Stands [] result }
    {
        Drawn {
            boxes: Few::new(),
            start: 0,
        }
    }

    // Whether the rows from `top` on go on with the last band.
    pub(crate) fn goes_on(&self, top: u16, runs: &[CellBox]) -> bool
        ensures { result ≡ goes_on_boxes top (spans runs.now) (drop self.now.start (listed self.now.boxes)) }
    {
        let band = &self.boxes.as_slice()[self.start..];
        band.first().is_some_and(|b| b.bottom == top) && same_edges(band, runs)
    }

    // Draws the last band on to `bottom`.
    pub(crate) fn grow(&mut self, bottom: u16)
        ensures { Grown bottom self.old self.new }
    {
        self.boxes.lower_from(self.start, bottom);
    }

    // Adds a band below the others.
    pub(crate) fn push(&mut self, top: u16, bottom: u16, runs: &[CellBox])
        requires { length (listed self.old.boxes) + length runs.now ≤ 32 }
        ensures { Pushed top bottom (spans runs.now) self.old self.new }
    {
        self.start = self.boxes.len();
        for run in runs {
            self.boxes.push(CellBox {
                left: run.left,
                top,
                right: run.right,
                bottom,
            });
        }
    }
}
