// Bits of bytes, from the top bit of the first byte on (STORE 5.1): a move of bits that goes byte by byte and ensures what
// the bit-by-bit definition says.
// kept: bytes and the bit to begin at are two parameters, since `moved` and `changed`, in which contracts above speak, have them so
#![tactic(auto)]

ghost use Rattle.std.specs.Prelude.{◌≡◌, true, cond, ◌+◌, ◌-◌, ◌*◌, ◌/◌, ◌%◌, ◌^◌, ◌≤◌, ◌<◌, min, eqb, length, get_or, set};
ghost use Rattle.paper.specs.Bits.{spliced, moved, changed};
ghost use Rattle.bits.specs.Field.{field_of};

use numbers::byte_or_zero;

// b with the k bits from weight 2 ^ s on made v.
#[tactic(auto, using(crate::proofs::Shifts::joined_fits, crate::proofs::Shifts::joined_is))]
fn joined(b: u32, s: usize, k: usize, v: u32) -> u8
    requires { (k + s ≤ 8) × (b < 256) × (v < 2 ^ k) }
    ensures { result ≡ spliced s k b v }
{
    let high = (b >> (k + s)) << (k + s);
    let low = (v << s) + b % (1u32 << s);
    (high + low) as u8
}

// The k bits of w from bit p on, as a number.
fn field(w: &[u8], p: usize, k: usize) -> u32
    requires { (k ≤ 8) × (p / 8 < length w.now) }
    ensures { result ≡ field_of w.now p k }
{
    let j = p / 8;
    let a = u32::from(w[j]);
    let b = u32::from(byte_or_zero(w, j + 1));
    ((a * 256 + b) >> (16 - (p % 8 + k))) % (1u32 << k)
}

// Byte i made y. `hit`, here and below, says whether something changed before; whether something changed by now comes back.
fn put_byte(d: &mut [u8], i: usize, y: u8, hit: bool) -> bool
    requires { i < length d.old }
    ensures { (d.new ≡ set d.old i y) × (result ≡ cond (eqb y (get_or d.old i 0)) hit true) }
{
    let old = d[i];
    d[i] = y;
    if y == old { hit } else { true }
}

// A move within one byte of d.
fn move_field(d: &mut [u8], to: usize, w: &[u8], from: usize, k: usize, hit: bool) -> bool
    requires { (1 ≤ k) × (to % 8 + k ≤ 8) × (to / 8 < length d.old) × (from / 8 < length w.now) }
    ensures { (d.new ≡ moved d.old to w.now from k)
        × (result ≡ cond (changed d.old to w.now from k) true hit) }
{
    let v = field(w, from, k);
    let j = to / 8;
    let y = joined(u32::from(d[j]), 8 - (to % 8 + k), k, v);
    put_byte(d, j, y, hit)
}

// A move to the whole byte i of d, from bit r of byte j of w on.
fn move_byte(d: &mut [u8], i: usize, w: &[u8], j: usize, r: usize, hit: bool) -> bool
    requires { (i < length d.old) × (j + 1 < length w.now) × (r < 8) }
    ensures { (d.new ≡ moved d.old (8 * i) w.now (8 * j + r) 8)
        × (result ≡ cond (changed d.old (8 * i) w.now (8 * j + r) 8) true hit) }
{
    let a = u32::from(w[j]);
    let b = u32::from(w[j + 1]);
    let y = (((a * 256 + b) >> (8 - r)) % 256) as u8;
    put_byte(d, i, y, hit)
}

// A move to whole bytes of d, from byte i on. Behind the last of its bits w has one more, so that two bytes can always be read.
#[tactic(auto, unfolding(paper::specs::Bits::moved, paper::specs::Bits::changed))]
fn move_bytes(d: &mut [u8], i: usize, w: &[u8], from: usize, count: usize, before: bool) -> bool
    requires { (i + count ≤ length d.old) × (from + 8 * count < 8 * length w.now) }
    ensures { (d.new ≡ moved d.old (8 * i) w.now from (8 * count))
        × (result ≡ cond (changed d.old (8 * i) w.now from (8 * count)) true before) }
{
    let j = from / 8;
    let r = from % 8;
    let mut hit = before;
    for n in 0..count {
        hit = move_byte(d, i + n, w, j + n, r, hit);
    }
    hit
}

// How many of the bits that are left lie in the byte of bit i.
fn run(i: usize, left: usize) -> usize
    ensures { result ≡ min (8 - i % 8) left }
{
    (8 - i % 8).min(left)
}

// d with its bits from `to` on made those of w from `from` on, `size` of them; whether one was another comes back. First go the bits up to
// the end of a byte of d, then whole bytes, then the one to eight bits that remain.
pub fn move_bits(d: &mut [u8], to: usize, w: &[u8], from: usize, size: usize) -> bool
    requires { (to + size ≤ 8 * length d.old) × (from + size ≤ 8 * length w.now) × (to + size < 2 ^ 64) × (from + size < 2 ^ 64) }
    ensures { (d.new ≡ moved d.old to w.now from size)
        × (result ≡ changed d.old to w.now from size) }
{
    if size == 0 {
        return false;
    }
    let k = run(to, size);
    let first = move_field(d, to, w, from, k, false);
    if size == k {
        return first;
    }
    let count = (size - k - 1) / 8;
    let hit = move_bytes(d, (to + k) / 8, w, from + k, count, first);
    let n = k + 8 * count;
    move_field(d, to + n, w, from + n, size - n, hit)
}
