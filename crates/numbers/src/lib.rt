// Bytes as wider numbers, and numbers in bytes: big-endian ones (STORE 7.2), two and four bytes of a slice, read and written, and a byte
// that may lie past the end.
// kept: three functions over the library's `From`, since docs/PROMISES.md has them and their theorems
#![tactic(auto)]

ghost use Rattle.std.specs.Prelude.{◌≡◌, ◌+◌, ◌≤◌, ◌<◌, length, get_or};
ghost use Rattle.paper.specs.Big.{be16, be32, put16, put32};

// A byte as a number of 16 bits.
pub fn as_u16(x: u8) -> u16
    ensures { (result ≡ x) × (result < 256) }
{
    u16::from(x)
}

// A byte as a number of 32 bits.
pub fn as_u32(x: u8) -> u32
    ensures { (result ≡ x) × (result < 256) }
{
    u32::from(x)
}

// A byte as a length or an index.
pub fn as_usize(x: u8) -> usize
    ensures { (result ≡ x) × (result < 256) }
{
    usize::from(x)
}

// Byte j, or 0 past the end: behind the last bits of a slice every bit is 0.
pub fn byte_or_zero(s: &[u8], j: usize) -> u8
    ensures { result ≡ get_or s.now j 0 }
{
    s.get(j).copied().unwrap_or(0)
}

// The number in the two bytes at `at`.
#[tactic(auto, unfolding(paper::specs::Big::be16))]
pub fn read16(s: &[u8], at: usize) -> u16
    requires { at + 2 ≤ length s.now }
    ensures { result ≡ be16 s.now at }
{
    u16::from_be_bytes([s[at], s[at + 1]])
}

// The number in the four bytes at `at`.
#[tactic(auto, unfolding(paper::specs::Big::be32, paper::specs::Big::be16))]
pub fn read32(s: &[u8], at: usize) -> u32
    requires { at + 4 ≤ length s.now }
    ensures { result ≡ be32 s.now at }
{
    u32::from_be_bytes([s[at], s[at + 1], s[at + 2], s[at + 3]])
}

// x into the two bytes at `at`.
#[tactic(auto, unfolding(paper::specs::Big::put16))]
pub fn write16(s: &mut [u8], at: usize, x: u16)
    requires { at + 2 ≤ length s.old }
    ensures { s.new ≡ put16 s.old at x }
{
    s[at..at + 2].copy_from_slice(&x.to_be_bytes());
}

// x into the four bytes at `at`.
#[tactic(auto, unfolding(paper::specs::Big::put32))]
pub fn write32(s: &mut [u8], at: usize, x: u32)
    requires { at + 4 ≤ length s.old }
    ensures { s.new ≡ put32 s.old at x }
{
    s[at..at + 4].copy_from_slice(&x.to_be_bytes());
}
