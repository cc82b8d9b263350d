// Bits in a row (STORE 21.2): a number of k whole bytes and two bits, data behind it, zeros up to a whole byte; and the two read back. Once over
// the head's bytes and the data's, which have three bits past their end.
#![tactic(auto)]

ghost use Rattle.std.specs.Prelude.{◌≡◌, ◌++◌, ◌+◌, ◌-◌, ◌*◌, ◌/◌, ◌^◌, ◌≤◌, ◌<◌, length};
ghost use Rattle.paper.specs.Field.{bits_at};
ghost use Rattle.paper.specs.Message.{digits_of, bits_from, in_bytes};
ghost use Rattle.packing.specs.Big.{put_big};

// v in the first k bytes, the top byte first.
#[tactic(auto, using(crate::proofs::Written::big_turn, crate::proofs::Written::big_end))]
fn put_big(d: &mut [u8], k: usize, v: u64)
    requires { k ≤ length d.old }
    ensures { d.new ≡ put_big d.old k v }
{
    let mut rest = v;
    for at in (0..k).rev() {
        d[at] = (rest % 256) as u8;
        rest = rest / 256;
    }
}

// The number in the first k bytes.
#[tactic(auto, unfolding(paper::specs::Field::bits_at))]
fn big(s: &[u8], k: usize) -> u64
    requires { (k ≤ length s.now) × (k ≤ 8) }
    ensures { result ≡ bits_at s.now 0 (8 * k) }
{
    let mut v = 0u64;
    for &byte in &s[..k] {
        v = v * 256 + u64::from(byte);
    }
    v
}

// The head and the data behind it.
pub fn write(out: &mut [u8], k: usize, head: u64, bytes: &[u8])
    requires out_len { (length out.old ≡ k + length bytes.now) × (2 ≤ length bytes.now) × (length bytes.now ≤ 255) }
    requires k_bound { (k ≤ 7) × (head < 2 ^ (8 * k + 2)) }
    ensures { out.new
        ≡ in_bytes (length out.old)
        (digits_of (8 * k + 2) head ++ bits_from bytes.now 0 (8 * length bytes.now - 3)) }
{
    let last = out.len() - 1;
    put_big(out, k + 1, head * 64);
    out[last] = 0;
    bits::move_bits(out, 8 * k + 2, bytes, 0, 8 * bytes.len() - 3);
}

// The head.
#[tactic(auto, using(crate::proofs::Written::head_cut))]
pub fn head(message: &[u8], k: usize) -> u64
    requires { (k < length message.now) × (k ≤ 7) }
    ensures { result ≡ bits_at message.now 0 (8 * k + 2) }
{
    big(message, k + 1) / 64
}

// The data behind it, with zeros past its end.
pub fn body(out: &mut [u8], k: usize, message: &[u8])
    requires { (length message.now ≡ k + length out.old) × (1 ≤ length out.old) × (length out.old ≤ 255) × (k ≤ 7) }
    ensures { out.new
        ≡ in_bytes (length out.old)
        (bits_from message.now (8 * k + 2) (8 * length out.old - 3)) }
{
    let n = out.len();
    out[n - 1] = 0;
    bits::move_bits(out, 0, message, 8 * k + 2, 8 * n - 3);
}
