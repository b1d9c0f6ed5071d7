// How the console writes bytes and numbers, and how it reads them.
#![tactic(auto)]

ghost use Rattle.std.specs.Prelude.{◌≡◌, ◌<◌, ◌∷◌, [], length, IfOk, Decides, ◌≢◌, slice_index};
ghost use Rattle.notation.specs.Decimal.{SpellsNumber, decimal};
ghost use Rattle.notation.specs.Formats.{name_of};
ghost use Rattle.notation.specs.Hex.{SpellsDigit, SpellsPair, hex_pairs, hex_of};
ghost use Rattle.notation.specs.Reads.{Reads, ReadsBytes};
ghost use Rattle.notation.specs.Writes.{Writes};

mod hex_text;
mod number_text;

pub use hex_text::HexText;
pub use number_text::NumberText;
use pixel::Format;
use std::alloc::{AllocError, Global};

// The word for a format, or for none.
pub fn format_name(format: Option<Format>) -> &'static str
    ensures { result.now ≡ name_of format }
{
    match format {
        Some(Format::Native) => "native",
        Some(Format::Little) => "little",
        Some(Format::Big) => "big",
        None => "unknown",
    }
}

// The text is the word.
pub fn is_word(text: &[u8], word: &[u8]) -> bool
    ensures { Decides result (text.now ≡ word.now) }
{
    text == word
}

// The bytes as the console writes them.
pub fn hex(heap: Global, bytes: &[u8]) -> Result<String, AllocError>
    ensures { Writes result (hex_of bytes.now) }
{
    HexText(bytes).to_string(heap)
}

// The number as the console writes it.
pub fn number(heap: Global, n: usize) -> Result<String, AllocError>
    ensures { Writes result (decimal n) }
{
    NumberText(n).to_string(heap)
}

// The value of an upper-case digit; a lower-case one has none.
fn digit_value(code: u8) -> Option<u8>
    ensures { Reads SpellsDigit result code }
{
    match code {
        b'0'..=b'9' => Some(code - b'0'),
        b'A'..=b'F' => Some(code - b'A' + 10),
        _ => None,
    }
}

// The byte that two digits write.
fn byte(high: u8, low: u8) -> Option<u8>
    ensures { Reads SpellsPair result (high ∷ low ∷ []) }
{
    let upper = digit_value(high)?;
    let lower = digit_value(low)?;
    Some(16 * upper + lower)
}

// The bytes that a text of hexadecimal pairs writes, or `None` where it is no such text.
fn parse_pairs(heap: Global, text: &[u8]) -> Result<Option<Vec<u8>>, AllocError>
    ensures { IfOk result (λ o. ReadsBytes hex_pairs o text.now) }
{
    // Told by its length alone, before any memory is asked for.
    if text.len() % 2 != 0 {
        return Ok(None);
    }
    let mut bytes = Vec::with_capacity(heap, text.len() / 2)?;
    let mut rest = text;
    while let [high, low, tail @ ..] = rest {
        let Some(b) = byte(*high, *low) else {
            return Ok(None);
        };
        bytes.push(b)?;
        rest = tail;
    }
    Ok(rest.is_empty().then_some(bytes))
}

// The bytes that the text writes, or `None` where no bytes are written so.
pub fn parse_hex(heap: Global, text: &[u8]) -> Result<Option<Vec<u8>>, AllocError>
    ensures { IfOk result (λ o. ReadsBytes hex_of o text.now) }
{
    match text {
        [] => Ok(None),
        b"-" => Ok(Some(Vec::new(heap))),
        _ => parse_pairs(heap, text),
    }
}

// The number that the text writes, or `None` where no number is written so.
// A number that does not fit is read as the largest that does.
pub fn parse_number(text: &[u8]) -> Option<usize>
    ensures { Reads SpellsNumber result text.now }
{
    match text {
        [] => None,
        [b'0', rest @ ..] => rest.is_empty().then_some(0),
        _ => parse_digits(text),
    }
}

// The number of a text that does not begin with `0`.
fn parse_digits(text: &[u8]) -> Option<usize>
    requires some { 0 < length text.now }
    requires leading { slice_index text.now 0 ≢ 48 }
    ensures { Reads SpellsNumber result text.now }
{
    let mut number: usize = 0;
    for code in text {
        if !code.is_ascii_digit() {
            return None;
        }
        number = number
            .saturating_mul(10)
            .saturating_add(usize::from(*code - b'0'));
    }
    Some(number)
}
