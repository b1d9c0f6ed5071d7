// The commands that change the console's regions, one on a line.
ghost use Rattle.command.specs.Alone.{RegionAlone};
ghost use Rattle.command.specs.Changes.{SpellsChange, SpellsRect, SpellsRegionCommand};
ghost use Rattle.notation.specs.Reads.{Reads};

use super::split::first;
use super::word::Word;
use notation::is_word;
use region::Operation;
use screen::Rect;

// `a` or `b`
#[derive(Clone, Copy, PartialEq, Eq, Hash, Debug)]
pub enum Name {
    A,
    B,
}

// What is done to a region.
#[derive(Clone, Copy, PartialEq, Eq, Hash, Debug)]
pub enum Change {
    // `empty`
    Empty,
    // `OPERATION X Y W H`
    ByRect(Operation, Rect),
    // `OPERATION NAME`
    ByRegion(Operation, Name),
}

// `region NAME CHANGE`
#[derive(Clone, Copy, PartialEq, Eq, Hash, Debug)]
pub struct RegionCommand {
    pub name: Name,
    pub change: Change,
}

// The change of a region that the text asks for, or `None` where it asks for none. No text asks for
// two, and none that spells a command asks for one.
#[tactic(auto, using(crate::proofs::Alone::region_alone))]
pub fn parse_region(text: &[u8]) -> Option<RegionCommand>
    ensures value { Reads SpellsRegionCommand result text.now }
    ensures alone { RegionAlone }
{
    let (name, rest) = first(text.strip_prefix(b"region ")?)?;
    Some(RegionCommand {
        name,
        change: change_of(rest)?,
    })
}

// What stands behind the name.
fn change_of(text: &[u8]) -> Option<Change>
    ensures { Reads SpellsChange result text.now }
{
    if is_word(text, b"empty") {
        return Some(Change::Empty);
    }
    let (operation, rest) = first(text)?;
    match Name::from_word(rest) {
        Some(name) => Some(Change::ByRegion(operation, name)),
        None => Some(Change::ByRect(operation, rect_of(rest)?)),
    }
}

// The rectangle of four short numbers.
fn rect_of(text: &[u8]) -> Option<Rect>
    ensures { Reads SpellsRect result text.now }
{
    let (x, rest) = first(text)?;
    let (y, rest) = first(rest)?;
    let (w, rest) = first(rest)?;
    let h = u16::from_word(rest)?;
    Some(Rect { x, y, w, h })
}
