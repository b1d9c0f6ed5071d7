// What a ring does.
ghost use Rattle.line.specs.Queues.{Extended, place_behind, ring_size};
ghost use Rattle.line.specs.Rings.{ring_opens, ring_within, ring_of, ring_state, size_of};
ghost use Rattle.line.specs.Rules.{Flushed, Read, Wrote};
ghost use Rattle.fault.specs.declared.Refusal.TheVariants.{Memory};
ghost use Rattle.std.specs.Prelude.{◌≡◌, ◌+◌, ◌<◌, ◌≤◌, [], ◌++◌, length, take, drop, is_ok, vec_len, MatchResult};

use super::Ring;
use crate::lines::Line;
use fault::{Refusal, Rejected};

impl Ring {
    // The largest memory that a ring takes.
    pub const MOST: usize = 65536;

    // An empty ring over memory of 1 to 65,536 bytes; any other memory is handed back.
    pub fn new(memory: Vec<u8>) -> Result<Ring, Rejected<Vec<u8>>>
        ensures test { is_ok result ≡ ring_size (vec_len memory) }
        ensures cases { MatchResult result (λ s. ring_state s ≡ ring_of (vec_len memory) []) (λ e. (e.refusal ≡ Memory) × (e.value ≡ memory)) }
    {
        if !(1..=Self::MOST).contains(&memory.len()) {
            return Err(Rejected {
                refusal: Refusal::Memory,
                value: memory,
            });
        }
        Ok(Ring {
            memory,
            head: 0,
            used: 0,
        })
    }

    // The place `by` bytes behind the head, going round at the memory's end.
    // It is passed once at most, so that no remainder, and no division, is needed.
    fn place(&self, by: usize) -> usize
        requires { by ≤ vec_len self.now.memory }
        ensures { result ≡ place_behind (vec_len self.now.memory) self.now.head by }
    {
        let to = self.head + by;
        to.checked_sub(self.memory.len()).unwrap_or(to)
    }

    // Puts bytes behind those that are queued.
    fn append(&mut self, bytes: &[u8])
        requires { self.old.used + length bytes.now ≤ vec_len self.old.memory }
        ensures { ring_state self.new ≡ ring_of (size_of self.old) ((ring_state self.old).queue ++ bytes.now) }
    {
        let tail = self.place(self.used);
        store(&mut self.memory, tail, bytes);
        self.used += bytes.len();
    }

    // The oldest bytes, as many as `into` has room for, in two runs: up to the memory's end, and
    // from its start.
    fn copy_to(&self, into: &mut [u8])
        requires { length into.old ≤ self.now.used }
        ensures { into.new ≡ take (length into.old) (ring_state self.now).queue }
    {
        let run = into.len().min(self.memory.len() - self.head);
        let (first, rest) = into.split_at_mut(run);
        first.copy_from_slice(&self.memory[self.head..self.head + run]);
        rest.copy_from_slice(&self.memory[..rest.len()]);
    }

    // Lets the oldest bytes go.
    #[tactic(auto, using(crate::proofs::Around::around_rest))]
    fn skip(&mut self, count: usize)
        requires { count ≤ self.old.used }
        ensures { ring_state self.new ≡ ring_of (size_of self.old) (drop count (ring_state self.old).queue) }
    {
        self.head = self.place(count);
        self.used -= count;
    }
}

// Copies `bytes` into the memory from `at` on, in two runs: up to its end, and from its start.
#[tactic(auto, using(crate::proofs::Around::stored))]
fn store(memory: &mut [u8], at: usize, bytes: &[u8])
    requires { (at < length memory.old) × (length bytes.now ≤ length memory.old) }
    ensures { Extended memory.old at bytes.now memory.new }
{
    let run = bytes.len().min(memory.len() - at);
    let (first, rest) = bytes.split_at(run);
    memory[at..at + run].copy_from_slice(first);
    memory[..rest.len()].copy_from_slice(rest);
}

impl Line for Ring {
    ghost state = { ring_state };

    ghost within = { ring_within };

    ghost opens = { ring_opens };

    fn queued(&self) -> usize {
        self.readable()
    }

    fn readable(&self) -> usize {
        self.used
    }

    fn free(&self) -> usize {
        self.memory.len() - self.used
    }

    fn write(&mut self, bytes: &[u8]) -> usize
        ensures line { Wrote bytes.now result (ring_state self.old) (ring_state self.new) }
        ensures size { size_of self.new ≡ size_of self.old }
    {
        let taken = bytes.len().min(self.free());
        self.append(&bytes[..taken]);
        taken
    }

    fn read(&mut self, into: &mut [u8]) -> usize
        ensures line { Read into.old result into.new (ring_state self.old) (ring_state self.new) }
        ensures size { size_of self.new ≡ size_of self.old }
    {
        let given = into.len().min(self.used);
        self.copy_to(&mut into[..given]);
        self.skip(given);
        given
    }

    fn flush(&mut self)
        ensures line { Flushed (ring_state self.old) (ring_state self.new) }
        ensures same { ring_state self.new ≡ ring_state self.old }
    {
        // Nothing is held back.
    }
}
