// The runs of cells of a row. They are kept as boxes of which only the left and the right edge count,
// so that the boxes of a band are its runs as they stand.
ghost use Rattle.boxes.specs.Bands.{Apart};
ghost use Rattle.region.specs.Rows.{Fits, Merged, add_run, begun, edge_of, ends_at, past_run, runs_of, spans, start_of};
ghost use Rattle.std.specs.Prelude.{◌≡◌, []};

use crate::few::Few;
use crate::operation::Operation;
use boxes::CellBox;

// From left to right. No two touch, so 128 is room for any row.
#[derive(Clone, Copy)]
pub struct Row {
    pub runs: Few<128>,
}

impl Row {
    pub(crate) fn new() -> Row
        ensures { runs_of result ≡ [] }
    {
        Row { runs: Few::new() }
    }

    // Whether the last run ends at column `x`.
    fn ends_at(&self, x: u16) -> bool
        ensures { result ≡ ends_at (runs_of self.now) x }
    {
        self.runs
            .as_slice()
            .last()
            .is_some_and(|run| run.right == x)
    }

    // Adds the columns from `left` up to `right`: the last run is widened where it ends there.
    fn add(&mut self, left: u16, right: u16)
        requires { Fits left (runs_of self.old) }
        ensures { runs_of self.new ≡ add_run left right (runs_of self.old) }
    {
        if self.ends_at(left) {
            self.runs.widen_last(right);
        } else {
            self.runs.push(CellBox {
                left,
                top: 0,
                right,
                bottom: 0,
            });
        }
    }

    // Becomes the row of what the operation keeps of two rows, each given by its runs.
    pub(crate) fn merge(&mut self, operation: Operation, first: &[CellBox], second: &[CellBox])
        requires { (Apart 0 (spans first.now)) × (Apart 0 (spans second.now)) }
        ensures { Merged operation (spans first.now) (spans second.now) (runs_of self.new) }
    {
        let (mut first, mut second) = (first, second);
        let mut x = start(first).min(start(second));
        self.runs.clear();
        while !(first.is_empty() && second.is_empty()) {
            let next = edge(first, x).min(edge(second, x));
            if operation.keep(begun(first, x), begun(second, x)) {
                self.add(x, next);
            }
            first = past(first, next);
            second = past(second, next);
            x = next;
        }
    }
}

// What is asked of runs along a row is what a `Place` is asked of bands, but for which edges are meant.

// The column where the runs begin; 256 where there are none.
fn start(runs: &[CellBox]) -> u16
    ensures { result ≡ start_of runs.now }
{
    match runs {
        [run, ..] => run.left,
        [] => 256,
    }
}

// The first column right of `x` where the runs may begin or end, none of which ends left of it; 256
// where there are none.
fn edge(runs: &[CellBox], x: u16) -> u16
    ensures { result ≡ edge_of runs.now x }
{
    match runs {
        [run, ..] if x < run.left => run.left,
        [run, ..] => run.right,
        [] => 256,
    }
}

// Whether the first run has begun at column `x`.
fn begun(runs: &[CellBox], x: u16) -> bool
    ensures { result ≡ begun runs.now x }
{
    match runs {
        [run, ..] => run.left <= x,
        [] => false,
    }
}

// The runs after the first where that ends at column `x`.
fn past(runs: &[CellBox], x: u16) -> &[CellBox]
    ensures { result.now ≡ past_run runs.now x }
{
    match runs {
        [run, rest @ ..] if run.right <= x => rest,
        _ => runs,
    }
}
