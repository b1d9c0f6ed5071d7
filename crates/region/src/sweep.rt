// An operation on two banded lists of boxes, by one sweep from the top of the largest screen down. A
// strip of rows goes on as long as neither list changes; the work for it is that for the boxes of the
// two bands that lie there.
ghost use Rattle.boxes.specs.Banded.{Banded};
ghost use Rattle.boxes.specs.Bands.{Apart};
ghost use Rattle.region.specs.Rows.{spans};
ghost use Rattle.region.specs.Sets.{kept};
ghost use Rattle.region.specs.Sweeps.{Painting, Strip};

use crate::operation::Operation;
use crate::place::Place;
use crate::row::Row;
use crate::work::Work;
use boxes::CellBox;

// Draws the rows from `top` up to `bottom`, in which the two lists have these runs.
fn strip(
    operation: Operation,
    top: u16,
    bottom: u16,
    first: &[CellBox],
    second: &[CellBox],
    row: &mut Row,
    work: &mut Work,
)
    requires first { Apart 0 (spans first.now) }
    requires second { Apart 0 (spans second.now) }
    ensures { Strip operation top bottom (spans first.now) (spans second.now) work.old work.new }
{
    if second.is_empty() {
        if operation.keep(true, false) {
            work.add(top, bottom, first);
        }
    } else if first.is_empty() {
        if operation.keep(false, true) {
            work.add(top, bottom, second);
        }
    } else {
        row.merge(operation, first, second);
        work.add(top, bottom, row.runs.as_slice());
    }
}

// Draws what the operation keeps of two lists.
pub(crate) fn sweep(operation: Operation, first: &[CellBox], second: &[CellBox]) -> Work
    requires { (Banded first.now) × (Banded second.now) }
    ensures { Painting (kept operation first.now second.now) 256 result }
{
    let mut work = Work::new();
    let mut row = Row::new();
    let mut p = Place::new(first);
    let mut q = Place::new(second);
    let mut y = 0;
    // From edge to edge, not from row to row.
    while y < 256 {
        let next = p.turn(y).min(q.turn(y));
        strip(
            operation,
            y,
            next,
            p.shown(y),
            q.shown(y),
            &mut row,
            &mut work,
        );
        p = p.past(next);
        q = q.past(next);
        y = next;
    }
    work
}
