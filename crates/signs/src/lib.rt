// Signed numbers: whether one is below 0, one without its sign, and the one that 32 bits are.
// kept: three functions over the library's methods, since docs/PROMISES.md has them and their theorems
#![tactic(auto)]

ghost use Rattle.std.specs.Prelude.{◌≡◌, not, nat_abs};
ghost use Rattle.std.specs.Int.Signed.{non_neg};
ghost use Rattle.signs.specs.Signs.{twos_complement};

// Whether it is below 0.
pub fn below_zero(n: i32) -> bool
    ensures { result ≡ not (non_neg n) }
{
    n.is_negative()
}

// A number without its sign: the least i32 has a size too.
pub fn size(n: i32) -> u32
    ensures { result ≡ nat_abs n }
{
    n.unsigned_abs()
}

// The number that four bytes are in two's complement.
#[tactic(auto, unfolding(crate::specs::Signs::twos_complement))]
pub fn of_bits(x: u32) -> i32
    ensures { result ≡ twos_complement x }
{
    x.cast_signed()
}
