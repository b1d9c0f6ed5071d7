// A line that is as slow as the rules allow: it takes one byte at a time, and after a byte is read
// it gives no other until it is flushed. What is proved of every line holds of it too.
ghost use Rattle.line_tests.specs.Drips.{drip_of, drip_opens, drip_within};

use line::{Batch, Line, Ring};
use std::test::Fail;
use transfer::carry;

// `awake` is a state and no more: no value stands beside it.
#[derive(Drop)]
struct Drip<L> {
    below: L,
    awake: bool,
}

impl<L: Line> Line for Drip<L> {
    ghost state = { λ s. drip_of s.awake (L.state s.below) };

    ghost within = { λ s. drip_within s.awake (L.state s.below) (L.within s.below) };

    ghost opens = { λ s. drip_opens s.awake (L.state s.below) (L.opens s.below) };

    fn queued(&self) -> usize {
        self.below.queued()
    }

    fn readable(&self) -> usize {
        if self.awake {
            return self.below.readable().min(1);
        }
        0
    }

    fn free(&self) -> usize {
        self.below.free().min(1)
    }

    fn write(&mut self, bytes: &[u8]) -> usize {
        let some = bytes.len().min(1);
        self.below.write(&bytes[0..some])
    }

    fn read(&mut self, into: &mut [u8]) -> usize {
        if !self.awake {
            return 0;
        }
        let some = into.len().min(1);
        let given = self.below.read(&mut into[0..some]);
        self.awake = given == 0;
        given
    }

    fn flush(&mut self) {
        self.below.flush();
        self.awake = true;
    }
}

#[test]
fn the_slowest_line_takes_as_many_rounds_as_bytes(rt: HostRuntime) -> Result<(), Fail> {
    let memory = vec![in rt.alloc(); 0; 9]?;
    let Ok(ring) = Ring::new(memory) else {
        return Err(Fail::new("no ring"));
    };
    let mut line = Batch::new(Drip {
        below: ring,
        awake: false,
    });
    let mut into = [0; 5];
    assert!(rt; carry(&mut line, b"12345", &mut into) == Ok(5));
    assert!(rt; into == *b"12345");
    Ok(())
}
