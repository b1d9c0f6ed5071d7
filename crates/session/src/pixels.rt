// Pixels and their formats in the console's notation.
ghost use Rattle.notation.specs.Formats.{name_of};
ghost use Rattle.notation.specs.Hex.{hex_of};
ghost use Rattle.notation.specs.Writes.{Writes};
ghost use Rattle.pixel.specs.Colours.{translated};
ghost use Rattle.pixel.specs.Descriptions.{described, parsed};
ghost use Rattle.pixel.specs.Pixels.{pixel_bytes};

use notation::{format_name, hex};
use pixel::Format;
use std::alloc::{AllocError, Global};

// The bytes of a native value in a format.
pub fn say_pixel(heap: Global, format: Format, native: u8) -> Result<String, AllocError>
    ensures { Writes result (hex_of (pixel_bytes format (translated format native))) }
{
    let mut out = [0; 4];
    let count = format.write(format.translate(native), &mut out).unwrap();
    hex(heap, &out[0..count])
}

// The bytes that describe a format.
pub fn say_description(heap: Global, format: Format) -> Result<String, AllocError>
    ensures { Writes result (hex_of (described format)) }
{
    hex(heap, &format.describe())
}

// The format that bytes describe, if any.
pub fn say_format(heap: Global, bytes: &[u8]) -> Result<String, AllocError>
    ensures { Writes result (name_of (parsed bytes.now)) }
{
    String::from_str(heap, format_name(Format::parse(bytes)))
}
