// A field's whole number times 2^-k as a double (STORE 20.4). Both factors are doubles, and so is the product: nothing is rounded.
// kept: two functions of one line each; as one, the type of its number would need a trait that says which signed number a value is
#![tactic(auto)]

ghost use Rattle.std.specs.Prelude.{◌≡◌, ◌<◌, pos};
ghost use Rattle.paper.specs.Double.{double};

// 2^-k.
#[tactic(auto, using(crate::proofs::Product::half_is, crate::proofs::Product::half_not_nan))]
fn half_to_the(k: u8) -> f64
    ensures { result ≡ double (pos 1) k }
{
    f64::from_bits((1023 - u64::from(k)) * 4503599627370496)
}

// A number that may be below 0, times 2^-k.
#[tactic(auto, using(crate::proofs::Product::product))]
pub fn of_signed(raw: i32, k: u8) -> f64
    ensures { result ≡ double raw k }
{
    let signed = f64::from(raw);
    signed * half_to_the(k)
}

// A number that is not below 0, times 2^-k.
#[tactic(auto, using(crate::proofs::Product::product))]
pub fn of_unsigned(raw: u32, k: u8) -> f64
    ensures { result ≡ double (pos raw) k }
{
    let unsigned = f64::from(raw);
    unsigned * half_to_the(k)
}
