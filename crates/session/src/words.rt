// A reply in the console's words.
ghost use Rattle.notation.specs.Writes.{Writes};
ghost use Rattle.session.specs.Replies.{spoken};
ghost use Rattle.std.specs.Prelude.{Some};

use super::Reply;
use notation::{HexText, NumberText};
use std::alloc::{AllocError, Global};
use std::fmt::{self, Write};
use transfer::Answer;

impl fmt::Display for Reply {
    ghost output = { λ r. Some (spoken r) };

    fn fmt<W: fmt::Write>(&self, f: &mut fmt::Formatter<W>) -> fmt::Result {
        match self {
            &Reply::Made(Answer::Took(count)) => write!(f, "took {}", NumberText(count)),
            Reply::Made(Answer::Gave(bytes)) => write!(f, "got {}", HexText(bytes)),
            Reply::Made(Answer::Done) => f.write_str("flushed"),
            &Reply::Queued {
                queued,
                readable,
                free,
            } => {
                let (queued, readable) = (NumberText(queued), NumberText(readable));
                let free = NumberText(free);
                write!(f, "queued {queued} readable {readable} free {free}")
            }
            Reply::Carried { rounds, bytes } => {
                let (count, rounds) = (NumberText(bytes.len()), NumberText(*rounds));
                let bytes = HexText(bytes);
                write!(f, "carried {count} in {rounds} rounds {bytes}")
            }
            Reply::Refused(refusal) => {
                let number = NumberText(usize::from(refusal.number()));
                write!(f, "refused {number}")
            }
        }
    }
}

// How much room the words beside a reply's bytes need at most.
const ROOM: usize = 64;

// A reply in words. All room for those with bytes is asked for at once.
pub fn say(heap: Global, reply: &Reply) -> Result<String, AllocError>
    ensures { Writes result (spoken reply.now) }
{
    let room = match reply {
        Reply::Made(Answer::Gave(bytes)) | Reply::Carried { bytes, .. } => {
            bytes.len().saturating_mul(2).saturating_add(ROOM)
        }
        _ => 0,
    };
    let mut text = String::with_capacity(heap, room)?;
    write!(text, "{reply}").map_err(|_| AllocError)?;
    Ok(text)
}
