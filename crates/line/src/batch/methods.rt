// What a batch does.
ghost use Rattle.line.specs.Batches.{Offered, Pushed, batch_opens, batch_within, batch_state, held_by};
ghost use Rattle.line.specs.Rules.{Flushed, Read, Wrote};
ghost use Rattle.std.specs.Prelude.{◌≡◌, ◌≤◌, [], ◌++◌, length, take};

use super::Batch;
use crate::lines::Line;
use arrayvec::ArrayVec;

impl<L: Line> Batch<L> {
    // A batch that holds nothing yet.
    pub fn new(below: L) -> Batch<L>
        ensures below { result.below ≡ below }
        ensures held { held_by result ≡ [] }
    {
        Batch {
            below,
            held: ArrayVec::new(),
        }
    }

    // Offers the held bytes below. The queue stays the same, and where there is one, the line below
    // has some of it.
    fn offer(&mut self)
        ensures offered { Offered (held_by self.old) (L.state self.old.below) (held_by self.new) (L.state self.new.below) }
        ensures queue { (batch_state L.state self.new).queue ≡ (batch_state L.state self.old).queue }
        ensures some { 1 ≤ length (batch_state L.state self.old).queue → 1 ≤ length (L.state self.new.below).queue }
    {
        let taken = self.below.write(&self.held);
        // A batch of its own for what stays: `drain` would move the bytes by way of 4,096 others.
        let mut rest = ArrayVec::new();
        rest.try_extend_from_slice(&self.held[taken..]).unwrap();
        self.held = rest;
    }
}

impl<L: Line> Line for Batch<L> {
    ghost state = { batch_state L.state };

    ghost within = { λ s. batch_within (L.state s.below) (held_by s) (L.within s.below) };

    ghost opens = { λ s. batch_opens (L.state s.below) (held_by s) };

    fn queued(&self) -> usize {
        self.below.queued().saturating_add(self.held.len())
    }

    fn readable(&self) -> usize {
        self.below.readable()
    }

    fn free(&self) -> usize {
        self.held.remaining_capacity()
    }

    fn write(&mut self, bytes: &[u8]) -> usize
        ensures line { Wrote bytes.now result (batch_state L.state self.old) (batch_state L.state self.new) }
        ensures held { held_by self.new ≡ held_by self.old ++ take result bytes.now }
        ensures below { self.new.below ≡ self.old.below }
    {
        let taken = bytes.len().min(self.held.remaining_capacity());
        self.held.try_extend_from_slice(&bytes[..taken]).unwrap();
        taken
    }

    fn read(&mut self, into: &mut [u8]) -> usize
        ensures line { Read into.old result into.new (batch_state L.state self.old) (batch_state L.state self.new) }
        ensures below { Read into.old result into.new (L.state self.old.below) (L.state self.new.below) }
        ensures held { held_by self.new ≡ held_by self.old }
    {
        self.below.read(into)
    }

    // Also where nothing is held: the line below may hold bytes of its own.
    fn flush(&mut self)
        ensures line { Flushed (batch_state L.state self.old) (batch_state L.state self.new) }
        ensures pushed { Pushed (held_by self.old) (L.state self.old.below) (held_by self.new) (L.state self.new.below) }
    {
        self.offer();
        self.below.flush();
    }
}
