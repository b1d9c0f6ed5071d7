// Painting on a screen. Its cells lie row by row from the top left, in memory that may go on behind
// them. What is painted beyond the screen is left out. The memory is passed with the sides each time:
// of a slice that a `Result` hands on nothing is known afterwards.
ghost use Rattle.screen.specs.Paints.{Painted, block_cell, copy_refusal, fill_refusal, moved_to, plain, put_refusal, source_cell};
ghost use Rattle.std.specs.Result.{result_err};
ghost use Rattle.std.specs.List.{CopiedTo, SameBelow, SameFrom};
ghost use Rattle.std.specs.Prelude.{◌≡◌, ◌+◌, ◌-◌, ◌≤◌, [], ◌∷◌, length, MatchResult};

use crate::corner::Corner;
use crate::rect::Rect;
use crate::sides::Sides;
use fault::Refusal;
use std::ops::Range;

// Refuses memory that has no room for a screen with these sides.
fn fits<T>(cells: &[T], sides: Sides) -> Result<(), Refusal>
    ensures { result_err result ≡ fill_refusal sides cells.now }
{
    if cells.len() < sides.area() {
        return Err(Refusal::Size);
    }
    Ok(())
}

// Gives each cell of the rectangle the value.
pub fn fill<T: Copy>(cells: &mut [T], sides: Sides, rect: Rect, value: T) -> Result<(), Refusal>
    ensures refused { result_err result ≡ fill_refusal sides cells.old }
    ensures cases { MatchResult result (λ _. Painted sides rect (plain value) cells.old cells.new) (λ _. cells.new ≡ cells.old) }
{
    fits(cells, sides)?;
    let part = rect.cut(sides); // what the screen shows of it
    for row in 0..part.h {
        // `fill` would ask what a clone of the value is.
        cells[sides.run(part.x, part.y + row, part.w)].fill_with(|| value);
    }
    Ok(())
}

// Puts a block of the rectangle's size, row by row, into its cells.
pub fn put<T: Copy>(cells: &mut [T], sides: Sides, rect: Rect, block: &[T]) -> Result<(), Refusal>
    ensures refused { result_err result ≡ put_refusal sides cells.old rect block.now }
    ensures cases { MatchResult result (λ _. Painted sides rect (block_cell rect block.now) cells.old cells.new) (λ _. cells.new ≡ cells.old) }
{
    fits(cells, sides)?;
    let block_sides = Sides {
        width: rect.w,
        height: rect.h,
    };
    if block.len() != block_sides.area() {
        return Err(Refusal::Block);
    }
    let part = rect.cut(sides);
    for row in 0..part.h {
        let from = block_sides.run(0, row, part.w);
        let to = sides.run(part.x, part.y + row, part.w);
        cells[to].copy_from_slice(&block[from]);
    }
    Ok(())
}

// Copies the source's cells, as they were, to the cells from the corner `to` on. Where the two
// overlap, the rows go in the order that reads each before it is written, so no second screen is
// needed.
pub fn copy<T: Copy>(cells: &mut [T], sides: Sides, source: Rect, to: Corner) -> Result<(), Refusal>
    ensures refused { result_err result ≡ copy_refusal sides cells.old source }
    ensures cases { MatchResult result (λ _. Painted sides (moved_to source to) (source_cell sides source to cells.old) cells.old cells.new) (λ _. cells.new ≡ cells.old) }
{
    fits(cells, sides)?;
    if !source.inside(sides) {
        return Err(Refusal::Source);
    }
    let target = Rect {
        x: to.x,
        y: to.y,
        ..source
    };
    let part = target.cut(sides);
    let upwards = source.y < part.y;
    for i in 0..part.h {
        let row = if upwards { part.h - 1 - i } else { i };
        let from = sides.run(source.x, source.y + row, part.w);
        let to = sides.run(part.x, part.y + row, part.w);
        copy_run(cells, from, to.start);
    }
    Ok(())
}

// Copies the run's cells, as they were, to the cells from the place `to` on. `copy_within` goes cell by
// cell, and is left to runs that overlap.
fn copy_run<T: Copy>(cells: &mut [T], from: Range<usize>, to: usize)
    requires source { (from.start ≤ from.end) × (from.end ≤ length cells.old) }
    requires target { to + (from.end - from.start) ≤ length cells.old }
    ensures len { length cells.new ≡ length cells.old }
    ensures by_index { CopiedTo cells.old cells.new from.start to (from.end - from.start) × SameBelow cells.old cells.new to × SameFrom cells.old cells.new (to + (from.end - from.start)) }
{
    let count = from.end - from.start;
    if from.end <= to {
        let (front, back) = cells.split_at_mut(to);
        back[..count].copy_from_slice(&front[from]);
    } else if to + count <= from.start {
        let (front, back) = cells.split_at_mut(from.start);
        front[to..to + count].copy_from_slice(&back[..count]);
    } else {
        cells.copy_within(from, to);
    }
}

// The row 1 2 3 4, after its first three cells were copied one to the right, over themselves.
pub fn overlapping() -> [u8; 4]
    ensures { result ≡ 1 ∷ 1 ∷ 2 ∷ 3 ∷ [] }
{
    let mut row = [1, 2, 3, 4];
    let sides = Sides {
        width: 4,
        height: 1,
    };
    let three = Rect {
        x: 0,
        y: 0,
        w: 3,
        h: 1,
    };
    let _ = copy(&mut row, sides, three, Corner { x: 1, y: 0 });
    row
}
