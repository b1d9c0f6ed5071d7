// A byte string from one end of a line to the other.
ghost use Rattle.transfer.specs.Rounds.{Advanced, Carried, carry_refusal};
ghost use Rattle.transfer.specs.Runs.{Ran, done, flush, took, write};
ghost use Rattle.std.specs.Result.{result_err};
ghost use Rattle.std.specs.Prelude.{◌≡◌, ◌≤◌, [], ◌∷◌, length, MatchResult};

use fault::Refusal;
use line::Line;

// Writes bytes and flushes, also where none of them was taken; answers how many were.
fn send<L: Line>(line: &mut L, bytes: &[u8]) -> usize
    ensures { Ran (write bytes.now ∷ flush ∷ []) (took result ∷ done ∷ []) (L.state line.old) (L.state line.new) }
{
    let taken = line.write(bytes);
    line.flush();
    taken
}

// How many bytes the line has taken so far, and how many of them it has given. The line and the memory
// are no fields: each clause would then name what lies behind a field.
#[derive(Clone, Copy, PartialEq, Eq, Debug)]
struct Trip {
    sent: usize,
    got: usize,
}

impl Trip {
    // One round: writes what is not yet taken, flushes, and reads what has not yet arrived.
    #[tactic(auto, using(crate::proofs::Travels::advanced))]
    fn go_on<L: Line>(&mut self, line: &mut L, bytes: &[u8], into: &mut [u8])
        requires sent { self.old.sent ≤ length bytes.now }
        requires got { self.old.got ≤ length bytes.now }
        requires memory { length bytes.now ≤ length into.old }
        ensures { Advanced bytes.now self.old self.new into.old into.new (L.state line.old) (L.state line.new) }
    {
        self.sent += send(line, &bytes[self.sent..]);
        self.got += line.read(&mut into[self.got..bytes.len()]);
    }
}

// Makes rounds until all of the bytes have arrived, and answers how many.
fn travel<L: Line>(line: &mut L, bytes: &[u8], into: &mut [u8]) -> usize
    requires memory { length bytes.now ≤ length into.old }
    requires idle { length (L.state line.old).queue ≡ 0 }
    ensures { Carried result bytes.now into.old into.new (L.state line.old) (L.state line.new) }
{
    let mut trip = Trip { sent: 0, got: 0 };
    let mut rounds = 0;
    // It ends when all has arrived; the count is only what is answered.
    while trip.got < bytes.len() {
        trip.go_on(line, bytes, into);
        rounds += 1;
    }
    rounds
}

// Carries `bytes` over a line that is empty to the start of `into`, and answers in how many rounds.
pub fn carry<L: Line>(line: &mut L, bytes: &[u8], into: &mut [u8]) -> Result<usize, Refusal>
    ensures refused { result_err result ≡ carry_refusal bytes.now into.old (L.state line.old).queue }
    ensures cases { MatchResult result (λ rounds. Carried rounds bytes.now into.old into.new (L.state line.old) (L.state line.new)) (λ _. (into.new ≡ into.old) × (line.new ≡ line.old)) }
{
    if into.len() < bytes.len() {
        return Err(Refusal::Memory);
    }
    if line.queued() > 0 {
        return Err(Refusal::Waiting);
    }
    Ok(travel(line, bytes, into))
}
