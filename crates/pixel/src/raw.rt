// Bytes compared, put and joined.
ghost use Rattle.std.specs.Prelude.{◌≡◌, ◌+◌, ◌*◌, ◌≤◌, length, Decides};
ghost use Rattle.std.specs.Str.{bytes_eq};
ghost use Rattle.pixel.specs.Descriptions.{judged};
ghost use Rattle.pixel.specs.Pixels.{if_long, placed};

// Two descriptions have the same bits, greatest values and shifts.
pub(crate) fn alike(a: &[u8], b: &[u8]) -> bool
    requires { (16 ≤ length a.now) × (16 ≤ length b.now) }
    ensures test { result ≡ bytes_eq (judged a.now) (judged b.now) }
    ensures same { Decides result (judged a.now ≡ judged b.now) }
{
    a[0] == b[0] && a[4..13] == b[4..13]
}

// Puts the bytes at the start of the memory and answers their number, where they fit.
pub(crate) fn put(bytes: &[u8], out: &mut [u8]) -> Option<usize>
    ensures answer { result ≡ if_long (length bytes.now) out.old (length bytes.now) }
    ensures bytes { out.new ≡ placed bytes.now out.old }
{
    if out.len() < bytes.len() {
        return None;
    }
    out[0..bytes.len()].copy_from_slice(bytes);
    Some(bytes.len())
}

// The number of a colour's three bytes.
pub(crate) fn colour(red: u8, green: u8, blue: u8) -> u32
    ensures { result ≡ red * 65536 + green * 256 + blue }
{
    u32::from_be_bytes([0, red, green, blue])
}
