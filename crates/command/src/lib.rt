// The commands that the console understands, one on a line.
#![tactic(auto)]

ghost use Rattle.command.specs.Grammar.{Spells};
ghost use Rattle.command.specs.Meaning.{Unambiguous};
ghost use Rattle.command.specs.Spaces.{spaced};
ghost use Rattle.notation.specs.Reads.{Reads};
ghost use Rattle.std.specs.Prelude.{◌≢◌, IfOk, MatchOption, codes};

mod regions;
mod split;
mod word;

use notation::{parse_hex, parse_number};
use pixel::Format;
pub use region::Operation;
pub use regions::{Change, Name, RegionCommand, parse_region};
use split::{first, split_word};
use std::alloc::{AllocError, Global};
use word::Word;

// At most so many bytes are read at once.
const READ_LIMIT: usize = 65536;

// How many bytes describe a format.
const DESCRIPTION: usize = 16;

#[derive(Clone, Copy, PartialEq, Eq, Hash, Debug)]
pub enum Kind {
    Ring,
    Batch,
    Pile,
}

#[derive(Drop, PartialEq, Eq, Debug)]
pub enum Command {
    // `line ring N`, `line batch N` or `line pile N`
    Line(Kind, usize),
    // `write HEX`
    Write(Vec<u8>),
    // `read N`
    Read(usize),
    Flush,
    Queue,
    // `carry HEX`
    Carry(Vec<u8>),
    // `pixel FORMAT V`: a native value
    Pixel(Format, u8),
    // `describe FORMAT`
    Describe(Format),
    // `format HEX`: sixteen bytes
    Recognize(Vec<u8>),
}

// The command that the text spells, or `None` where it spells none. No text spells two.
#[tactic(auto, using(crate::proofs::Unambiguous::unambiguous))]
pub fn parse(heap: Global, text: &[u8]) -> Result<Option<Command>, AllocError>
    ensures value { IfOk result (λ o. Reads Spells o text.now) }
    ensures alone { Unambiguous }
{
    let Some((word, rest)) = split_word(text) else {
        return Ok(lone(text));
    };
    match word {
        b"line" => Ok(line(rest)),
        b"write" => Ok(parse_hex(heap, rest)?.map(Command::Write)),
        b"read" => Ok(read(rest)),
        b"carry" => Ok(parse_hex(heap, rest)?.map(Command::Carry)),
        b"pixel" => Ok(pixel(rest)),
        b"describe" => Ok(Format::from_word(rest).map(Command::Describe)),
        b"format" => recognize(heap, rest),
        _ => Ok(None),
    }
}

// A command of one word.
fn lone(text: &[u8]) -> Option<Command>
    ensures { MatchOption result ((text.now ≢ codes "flush") × (text.now ≢ codes "queue"))
        (λ c. Spells c text.now) }
{
    match text {
        b"flush" => Some(Command::Flush),
        b"queue" => Some(Command::Queue),
        _ => None,
    }
}

// What stands behind `line `. A number that does not fit is read as the largest that does.
fn line(text: &[u8]) -> Option<Command>
    ensures { Reads Spells result (spaced (codes "line") text.now) }
{
    let (kind, rest) = first(text)?;
    Some(Command::Line(kind, parse_number(rest)?))
}

// What stands behind `read `.
fn read(text: &[u8]) -> Option<Command>
    ensures { Reads Spells result (spaced (codes "read") text.now) }
{
    parse_number(text)
        .filter(|n| *n <= READ_LIMIT)
        .map(Command::Read)
}

// What stands behind `pixel `.
fn pixel(text: &[u8]) -> Option<Command>
    ensures { Reads Spells result (spaced (codes "pixel") text.now) }
{
    let (format, rest) = first(text)?;
    Some(Command::Pixel(format, u8::from_word(rest)?))
}

// What stands behind `format `.
fn recognize(heap: Global, text: &[u8]) -> Result<Option<Command>, AllocError>
    ensures { IfOk result (λ o. Reads Spells o (spaced (codes "format") text.now)) }
{
    let sixteen = parse_hex(heap, text)?.filter(|bytes| bytes.len() == DESCRIPTION);
    Ok(sixteen.map(Command::Recognize))
}
