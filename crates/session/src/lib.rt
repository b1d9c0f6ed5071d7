// What is asked of a line, and what it replies.
#![tactic(auto)]

ghost use Rattle.session.specs.Replies.{Responded};
ghost use Rattle.transfer.specs.Runs.{Answered, OrUnchanged, act, reply};

mod pixels;
mod regions;
mod words;

use fault::Refusal;
use line::Line;
pub use pixels::{say_description, say_format, say_pixel};
pub use regions::say_boxes;
use std::alloc::{AllocError, Global};
use std::slice::from_ref;
use transfer::{Answer, Call, carry, converse};
pub use words::say;

#[derive(Debug, PartialEq, Eq, Drop)]
pub enum Request {
    Make(Call),
    Queue,
    Carry(Vec<u8>),
}

#[derive(Debug, PartialEq, Eq, Drop)]
pub enum Reply {
    Made(Answer),
    Queued {
        queued: usize,
        readable: usize,
        free: usize,
    },
    Carried {
        rounds: usize,
        bytes: Vec<u8>,
    },
    Refused(Refusal),
}

// Makes one call, as a list of one: so all that is said of lists of calls holds of it.
fn call<L: Line>(heap: Global, line: &mut L, made: &Call) -> Result<Answer, AllocError>
    ensures { OrUnchanged result (λ a. Answered (act made.now) (reply a)) (L.state line.old) (L.state line.new) }
{
    let mut answers = converse(heap, line, from_ref(made))?;
    Ok(answers.pop().unwrap())
}

// Carries bytes to memory of their length.
fn carried<L: Line>(heap: Global, line: &mut L, bytes: Vec<u8>) -> Result<Reply, AllocError>
    ensures { OrUnchanged result (Responded (Request.Carry bytes)) (L.state line.old) (L.state line.new) }
{
    let mut into = vec![in heap; 0; bytes.len()]?;
    match carry(line, &bytes, &mut into) {
        Ok(rounds) => Ok(Reply::Carried {
            rounds,
            bytes: into,
        }),
        Err(refusal) => Ok(Reply::Refused(refusal)),
    }
}

// Does what is requested of the line. Where memory runs out, nothing is done.
pub fn respond<L: Line>(heap: Global, line: &mut L, request: Request) -> Result<Reply, AllocError>
    ensures { OrUnchanged result (Responded request) (L.state line.old) (L.state line.new) }
{
    match request {
        Request::Make(made) => Ok(Reply::Made(call(heap, line, &made)?)),
        Request::Queue => Ok(Reply::Queued {
            queued: line.queued(),
            readable: line.readable(),
            free: line.free(),
        }),
        Request::Carry(bytes) => carried(heap, line, bytes),
    }
}
