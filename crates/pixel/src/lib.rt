// The pixel formats, their descriptions, and pixels as bytes.
#![tactic(auto)]

ghost use Rattle.std.specs.Prelude.{◌≡◌, IfSome};
ghost use Rattle.pixel.specs.Colours.{Samples, translated};
ghost use Rattle.pixel.specs.Descriptions.{Meant, Understood, described, parsed};
ghost use Rattle.pixel.specs.Pixels.{AllUsed, ReadBack, Sized, bytes_per, first_pixel, if_long, pixel_bytes, placed};

mod raw;
mod wide;

// A 32-bit pixel uses its low 24 bits, so its value is below this.
const COLOURS: u32 = 0x1000000;

// Native has 8 bits; the others have 32, in little or big order.
#[derive(Clone, Copy, PartialEq, Eq, Hash, Debug)]
pub enum Format {
    Native,
    Little,
    Big,
}

impl Format {
    // The description that is written.
    pub fn describe(self) -> [u8; 16]
        ensures bytes { result ≡ described self }
        ensures back { Understood self result }
    {
        match self {
            Format::Native => [8, 8, 0, 1, 0, 7, 0, 7, 0, 3, 0, 3, 6, 0, 0, 0],
            Format::Little => [32, 24, 0, 1, 0, 255, 0, 255, 0, 255, 16, 8, 0, 0, 0, 0],
            Format::Big => [32, 24, 1, 1, 0, 255, 0, 255, 0, 255, 16, 8, 0, 0, 0, 0],
        }
    }

    // The format that a description means, where it is accepted.
    pub fn parse(bytes: &[u8]) -> Option<Format>
        ensures value { result ≡ parsed bytes.now }
        ensures meant { Meant bytes.now result }
    {
        if bytes.len() != 16 || bytes[3] == 0 {
            return None;
        }
        if raw::alike(bytes, &Format::Native.describe()) {
            return Some(Format::Native);
        }
        // Both orders of 32 bits are alike but for the order flag.
        if !raw::alike(bytes, &Format::Little.describe()) {
            return None;
        }
        if bytes[2] == 0 {
            return Some(Format::Little);
        }
        Some(Format::Big)
    }

    // The number of a native value in this format.
    pub fn translate(self, native: u8) -> u32
        ensures value { result ≡ translated self native }
        ensures used { AllUsed self result }
        ensures samples { Samples }
    {
        match self {
            Format::Native => u32::from(native),
            Format::Little | Format::Big => wide::widen(native),
        }
    }

    // How many bytes a pixel has.
    pub fn bytes_per_pixel(self) -> usize
        ensures count { result ≡ bytes_per self }
        ensures each { Sized self result }
    {
        match self {
            Format::Native => 1,
            Format::Little | Format::Big => 4,
        }
    }

    // Writes the pixel's bytes at the start of `out` and answers their number; writes nothing
    // where `out` is too short.
    pub fn write(self, value: u32, out: &mut [u8]) -> Option<usize>
        ensures answer { result ≡ if_long (bytes_per self) out.old (bytes_per self) }
        ensures bytes { out.new ≡ placed (pixel_bytes self value) out.old }
        ensures back { ReadBack self value result out.new }
    {
        match self {
            Format::Native => raw::put(&value.to_le_bytes()[..1], out),
            Format::Little => raw::put(&(value % COLOURS).to_le_bytes(), out),
            Format::Big => raw::put(&(value % COLOURS).to_be_bytes(), out),
        }
    }

    // The value of the pixel at the start of the bytes, where there are enough.
    pub fn read(self, bytes: &[u8]) -> Option<u32>
        ensures value { result ≡ first_pixel self bytes.now }
        ensures used { IfSome result (AllUsed self) }
    {
        match (self, bytes) {
            (Format::Native, [byte, ..]) => Some(u32::from(*byte)),
            (Format::Little, [blue, green, red, _, ..]) => Some(raw::colour(*red, *green, *blue)),
            (Format::Big, [_, red, green, blue, ..]) => Some(raw::colour(*red, *green, *blue)),
            _ => None,
        }
    }
}
