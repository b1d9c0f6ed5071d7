// Bytes as the console writes them, printed in place.
ghost use Rattle.notation.specs.Hex.{hex_digit, hex_of, hex_pairs};
ghost use Rattle.std.specs.Prelude.{IsAscii, Some, length, take, ◌*◌, ◌<◌, ◌≡◌, ◌≤◌};

use std::{fmt, str};

// Bytes that are printed as the console writes them.
#[derive(Clone, Copy)]
pub struct HexText<'a>(pub &'a [u8]);

impl fmt::Display for HexText<'_> {
    ghost output = { λ h. Some (hex_of h.0.now) };

    fn fmt<W: fmt::Write>(&self, f: &mut fmt::Formatter<W>) -> fmt::Result {
        if self.0.is_empty() {
            return f.write_str("-");
        }
        // A write costs far more than a digit, so each one takes the digits of up to 32 bytes.
        let mut digits = [0u8; 64];
        for piece in self.0.chunks(32) {
            put_pairs(piece, &mut digits);
            let Ok(text) = str::from_utf8(&digits[..2 * piece.len()]) else {
                unreachable!();
            };
            f.write_str(text)?;
        }
        Ok(())
    }
}

// Puts the two digits of each byte at the front, one pair after the other.
fn put_pairs(bytes: &[u8], digits: &mut [u8; 64])
    requires { length bytes.now ≤ 32 }
    ensures pairs { take (2 * length bytes.now) digits.new ≡ hex_pairs bytes.now }
    ensures ascii { IsAscii (take (2 * length bytes.now) digits.new) }
{
    for (i, b) in bytes.iter().enumerate() {
        digits[2 * i] = digit(*b / 16);
        digits[2 * i + 1] = digit(*b % 16);
    }
}

// The digit for a value below 16.
fn digit(value: u8) -> u8
    requires { value < 16 }
    ensures value { result ≡ hex_digit value }
    ensures ascii { result < 128 }
{
    if value < 10 {
        b'0' + value
    } else {
        b'A' + (value - 10)
    }
}
