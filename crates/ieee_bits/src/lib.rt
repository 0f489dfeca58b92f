// Bit patterns of every float, NaN included, and the key of totalOrder.
#![tactic(auto)]

ghost use Rattle.std.specs.Prelude.{◌≡◌};
ghost use Rattle.std.specs.Float.Ieee.{to_bits, of_bits};
ghost use Rattle.std.specs.Float.{binary64};
ghost use Rattle.ieee_bits.specs.Bits.{total_key};

// The bit of the sign, and the patterns of the infinity above and of a NaN.
const SIGN: u64 = 0x8000_0000_0000_0000;

const INFINITY: u64 = 0x7ff0_0000_0000_0000;

const NAN: u64 = 0x7ff8_0000_0000_0000;

// The bit pattern of x. Every NaN is written as 7FF8000000000000.
pub fn to_bits(x: f64) -> u64
    ensures { result ≡ to_bits binary64 x }
{
    if x.is_nan() {
        return NAN;
    }
    f64::to_bits(x)
}

// The float of a bit pattern. Every NaN pattern gives a NaN, of no particular sign or payload.
pub fn from_bits(b: u64) -> f64
    ensures { result ≡ of_bits binary64 b }
{
    if b % SIGN > INFINITY {
        return f64::NAN;
    }
    f64::from_bits(b)
}

// The place of x in totalOrder, as a number.
#[tactic(auto, unfolding(crate::specs::Bits::total_key))]
pub fn total_key(x: f64) -> u64
    ensures { result ≡ total_key x }
{
    let b = to_bits(x);
    if b < SIGN {
        return b + SIGN;
    }
    u64::MAX - b
}
