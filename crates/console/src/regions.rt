// The regions that commands are about: empty at first.
ghost use Rattle.console.specs.Kept.{Changed, region_named, replaced};
ghost use Rattle.console.specs.Lent.{LendsNamed};
ghost use Rattle.notation.specs.Writes.{Writes};
ghost use Rattle.region.specs.Held.{held};
ghost use Rattle.session.specs.Boxes.{boxes_words};
ghost use Rattle.std.specs.Borrow.{sem};
ghost use Rattle.std.specs.Prelude.{◌≡◌, []};

use command::{Change, Name};
use region::Region;
use session::say_boxes;
use std::alloc::{AllocError, Global};

#[derive(Drop)]
pub struct Regions {
    a: Region,
    b: Region,
}

impl Regions {
    pub(crate) fn new() -> Regions
        ensures { (held result.a ≡ []) × (held result.b ≡ []) }
    {
        Regions {
            a: Region::empty(),
            b: Region::empty(),
        }
    }

    // Changes the region of that name, and answers its boxes in words.
    pub(crate) fn change(
        &mut self,
        heap: Global,
        name: Name,
        change: Change,
    ) -> Result<String, AllocError>
        ensures changed { Changed change name self.old (region_named name self.new) }
        ensures other { self.new ≡ replaced name (region_named name self.new) self.old }
        ensures words { Writes result (boxes_words (held (region_named name self.new))) }
    {
        *self.named_mut(name) = self.changed(name, change);
        say_boxes(heap, self.named(name).boxes())
    }

    // To change the region of that name; the other stays.
    fn named_mut(&mut self, name: Name) -> &mut Region
        ensures* { sem 𝓛 (LendsNamed self.entry name result) }
    {
        match name {
            Name::A => &mut self.a,
            Name::B => &mut self.b,
        }
    }

    fn named(&self, name: Name) -> &Region
        ensures { result.now ≡ region_named name self.now }
    {
        match name {
            Name::A => &self.a,
            Name::B => &self.b,
        }
    }

    // What the change makes of the region.
    fn changed(&self, name: Name, change: Change) -> Region
        ensures { Changed change name self.now result }
    {
        let region = self.named(name);
        match change {
            Change::Empty => Region::empty(),
            Change::ByRect(operation, rect) => region.combine(operation, &Region::from(rect)),
            Change::ByRegion(operation, other) => region.combine(operation, self.named(other)),
        }
    }
}
