// Calls to a line as values, so that a whole list of them can be made.
ghost use Rattle.transfer.specs.Runs.{Answered, Conserved, OrUnchanged, Ran, Received, Stopped, act, reply};
ghost use Rattle.std.specs.Prelude.{map, IfOk, MatchResult};

use line::Line;
use std::alloc::{AllocError, Global};

#[derive(Debug, PartialEq, Eq, Drop)]
pub enum Call {
    Write(Vec<u8>),
    // Into memory of that many bytes.
    Read(usize),
    Flush,
}

#[derive(Debug, PartialEq, Eq, Drop)]
pub enum Answer {
    Took(usize),
    Gave(Vec<u8>),
    Done,
}

// Reads at most `most` bytes. Where there is no memory for that many, nothing is read.
fn receive<L: Line>(heap: Global, line: &mut L, most: usize) -> Result<Vec<u8>, AllocError>
    ensures { OrUnchanged result (λ v. Received most v.items) (L.state line.old) (L.state line.new) }
{
    let mut into = vec![in heap; 0; most]?;
    let given = line.read(&mut into);
    into.truncate(given);
    Ok(into)
}

// Makes one call. Where there is no memory for the bytes of a read, it is not made.
pub fn make<L: Line>(heap: Global, line: &mut L, call: &Call) -> Result<Answer, AllocError>
    ensures { OrUnchanged result (λ a. Answered (act call.now) (reply a)) (L.state line.old) (L.state line.new) }
{
    match call {
        Call::Write(bytes) => Ok(Answer::Took(line.write(bytes))),
        Call::Read(most) => Ok(Answer::Gave(receive(heap, line, *most)?)),
        Call::Flush => {
            line.flush();
            Ok(Answer::Done)
        }
    }
}

// Makes the calls in their order, and gives their answers. Where memory runs out, the calls from
// some place on are not made.
#[tactic(auto, using(crate::proofs::Conserves::ran_next))]
pub fn converse<L: Line>(
    heap: Global,
    line: &mut L,
    calls: &[Call],
) -> Result<Vec<Answer>, AllocError>
    ensures ran { MatchResult result (λ v. Ran (map act calls.now) (map reply v.items) (L.state line.old) (L.state line.new)) (λ _. Stopped (map act calls.now) (L.state line.old) (L.state line.new)) }
    ensures conserved { IfOk result (λ v. Conserved (map act calls.now) (map reply v.items) (L.state line.old) (L.state line.new)) }
{
    let mut answers = Vec::with_capacity(heap, calls.len())?;
    for call in calls {
        let answer = make(heap, line, call)?;
        answers.push_reserved(answer);
    }
    Ok(answers)
}
