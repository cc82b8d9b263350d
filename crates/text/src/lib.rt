// Text written into lent bytes at a place: letters, decimal numbers and lower-case hex. Each call answers the place behind its text.
// kept: bytes and place are two parameters, and the next place comes back, since `Put`, in which theorems above speak, has them so
#![tactic(auto)]

ghost use Rattle.std.specs.Prelude.{◌≡◌, ◌+◌, ◌*◌, ◌≤◌, ◌<◌, length};
ghost use Rattle.text.specs.Text.{Put, most_digits, decimal, hex_digit, hex_of, hex32};

// A text as it stands.
pub fn put_bytes(out: &mut [u8], at: usize, text: &[u8]) -> usize
    requires { at + length text.now ≤ length out.old }
    ensures { Put out.old at text.now out.new result }
{
    // kept: byte by byte, since `copy_from_slice` over a length that is not known asks for memcpy, and the archive may not
    for (i, &byte) in text.iter().enumerate() {
        out[at + i] = byte;
    }
    at + text.len()
}

// The digits of the longest number.
pub const MOST_DIGITS: usize = 10;

// A number in decimal.
pub fn put_decimal(out: &mut [u8], at: usize, x: u32) -> usize
    requires { at + most_digits ≤ length out.old }
    ensures { (Put out.old at (decimal x) out.new result) × (result ≤ at + most_digits) }
{
    if x < 10 {
        out[at] = b'0' + x as u8;
        return at + 1;
    }
    let next = put_decimal(out, at, x / 10);
    out[next] = b'0' + (x % 10) as u8;
    next + 1
}

fn hex_digit(d: u8) -> u8
    requires { d < 16 }
    ensures { result ≡ hex_digit d }
{
    if d < 10 {
        return b'0' + d;
    }
    b'a' + (d - 10)
}

// Bytes in hex, two digits each.
pub fn put_hex(out: &mut [u8], at: usize, bytes: &[u8]) -> usize
    requires { at + 2 * length bytes.now ≤ length out.old }
    ensures { Put out.old at (hex_of bytes.now) out.new result }
{
    let mut to = at;
    for &byte in bytes {
        out[to] = hex_digit(byte / 16);
        out[to + 1] = hex_digit(byte % 16);
        to += 2;
    }
    to
}

// A number in hex, eight digits.
#[tactic(auto, unfolding(crate::specs::Text::hex32))]
pub fn put_hex32(out: &mut [u8], at: usize, x: u32) -> usize
    requires { at + 8 ≤ length out.old }
    ensures { Put out.old at (hex32 x) out.new result }
{
    put_hex(out, at, &x.to_be_bytes())
}
