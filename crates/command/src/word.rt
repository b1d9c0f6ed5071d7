// Values that the console writes as one word.
ghost use Rattle.command.specs.Changes.{SpellsShort, name_word, operation_word};
ghost use Rattle.command.specs.Grammar.{kind_word};
ghost use Rattle.command.specs.Lengths.{byte_within, format_within, kind_within, name_within, operation_within, short_within};
ghost use Rattle.command.specs.Spaces.{Unspaced, longest};
ghost use Rattle.command.specs.Unspaced.{format_unspaced, kind_unspaced, name_unspaced, number_unspaced, operation_unspaced};
ghost use Rattle.notation.specs.Decimal.{SpellsBelow};
ghost use Rattle.notation.specs.Formats.{format_word};
ghost use Rattle.notation.specs.Reads.{Reads};
ghost use Rattle.std.specs.Prelude.{◌≡◌, ℕ, ◌≤◌, List, length};

use super::Kind;
use super::regions::Name;
use notation::parse_number;
use pixel::Format;
use region::Operation;

// A value that is written as one word, short enough to stand before a space.
pub(crate) trait Word: Copy {
    ghost spells: { Self → List ℕ → Type 0 };

    // The value that the text spells, if it spells one.
    fn from_word(text: &[u8]) -> Option<Self>
        ensures { Reads spells result text.now };

    ghost unspaced: { (x : Self) (text : List ℕ) → spells x text → Unspaced text };

    ghost within: { (x : Self) (text : List ℕ) → spells x text → length text ≤ longest };
}

impl Word for Kind {
    ghost spells = { λ kind text. text ≡ kind_word kind };

    ghost unspaced = { kind_unspaced };

    ghost within = { kind_within };

    fn from_word(text: &[u8]) -> Option<Kind> {
        match text {
            b"ring" => Some(Kind::Ring),
            b"batch" => Some(Kind::Batch),
            b"pile" => Some(Kind::Pile),
            _ => None,
        }
    }
}

impl Word for Format {
    ghost spells = { λ format text. text ≡ format_word format };

    ghost unspaced = { format_unspaced };

    ghost within = { format_within };

    fn from_word(text: &[u8]) -> Option<Format> {
        match text {
            b"native" => Some(Format::Native),
            b"little" => Some(Format::Little),
            b"big" => Some(Format::Big),
            _ => None,
        }
    }
}

impl Word for Name {
    ghost spells = { λ name text. text ≡ name_word name };

    ghost unspaced = { name_unspaced };

    ghost within = { name_within };

    fn from_word(text: &[u8]) -> Option<Name> {
        match text {
            b"a" => Some(Name::A),
            b"b" => Some(Name::B),
            _ => None,
        }
    }
}

impl Word for Operation {
    ghost spells = { λ operation text. text ≡ operation_word operation };

    ghost unspaced = { operation_unspaced };

    ghost within = { operation_within };

    fn from_word(text: &[u8]) -> Option<Operation> {
        match text {
            b"join" => Some(Operation::Join),
            b"cut" => Some(Operation::Cut),
            b"away" => Some(Operation::Away),
            _ => None,
        }
    }
}

impl Word for u8 {
    ghost spells = { SpellsBelow 256 };

    ghost unspaced = { λ n text s. number_unspaced n text s.1 };

    ghost within = { byte_within };

    fn from_word(text: &[u8]) -> Option<u8> {
        u8::try_from(parse_number(text)?).ok()
    }
}

impl Word for u16 {
    ghost spells = { SpellsShort };

    ghost unspaced = { λ n text s. number_unspaced n text s.1 };

    ghost within = { short_within };

    fn from_word(text: &[u8]) -> Option<u16> {
        u16::try_from(parse_number(text)?).ok()
    }
}
