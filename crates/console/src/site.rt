// The line that commands are about: none at first. Each type of line has an arm, since a `dyn` line
// cannot be passed for a type parameter.
use command::Kind;
use line::{Batch, Ring};
use session::{Reply, Request, respond, say};
use std::alloc::{AllocError, Global};

#[derive(Drop)]
pub enum Site {
    Bare,
    Ring(Ring),
    Batch(Batch<Ring>),
    Pile(Batch<Batch<Ring>>),
}

impl Site {
    // Does what is requested of the line, and answers in words.
    pub(crate) fn request(&mut self, heap: Global, request: Request) -> Result<String, AllocError> {
        let reply = match self {
            Site::Bare => return String::from_str(heap, "no line"),
            Site::Ring(line) => respond(heap, line, request),
            Site::Batch(line) => respond(heap, line, request),
            Site::Pile(line) => respond(heap, line, request),
        };
        say(heap, &reply?)
    }

    // A line of that kind.
    fn over(ring: Ring, kind: Kind) -> Site {
        match kind {
            Kind::Ring => Site::Ring(ring),
            Kind::Batch => Site::Batch(Batch::new(ring)),
            Kind::Pile => Site::Pile(Batch::new(Batch::new(ring))),
        }
    }

    // Lays a new line over a ring of `size` bytes. Where the ring is refused, the line before stays.
    pub(crate) fn lay(
        &mut self,
        heap: Global,
        kind: Kind,
        size: usize,
    ) -> Result<String, AllocError> {
        // One byte more than a ring takes is enough to have it refused.
        let memory = vec![in heap; 0; size.min(Ring::MOST + 1)]?;
        match Ring::new(memory) {
            Ok(ring) => {
                *self = Site::over(ring, kind);
                String::from_str(heap, "ok")
            }
            Err(rejected) => say(heap, &Reply::Refused(rejected.refusal)),
        }
    }
}
