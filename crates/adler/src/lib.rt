// Adler-32 of bytes (RFC 1950), by which two rooms are compared.
#![tactic(auto)]

ghost use Rattle.std.specs.Prelude.{◌≡◌, ◌+◌, ◌%◌, ◌<◌};
ghost use Rattle.adler.specs.Adler.{adler_prime, adler_of};

const BASE: u32 = 65521;

// A difference is cheaper than a remainder, and a sum of two numbers below the base is below twice the base.
fn reduced(sum: u32) -> u32
    requires { sum < adler_prime + adler_prime }
    ensures { result ≡ sum % adler_prime }
{
    if sum < BASE {
        return sum;
    }
    sum - BASE
}

#[tactic(auto, using(crate::proofs::Sums::sum_turn, crate::proofs::Sums::adler_done))]
pub fn adler32(bytes: &[u8]) -> u32
    ensures { result ≡ adler_of bytes.now }
{
    let mut s1: u32 = 1;
    let mut s2: u32 = 0;
    for &byte in bytes {
        s1 = reduced(s1 + u32::from(byte));
        s2 = reduced(s2 + s1);
    }
    s2 * 65536 + s1
}
