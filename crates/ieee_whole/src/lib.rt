// Whole numbers near a float, as Rust's `floor`, `round` and saturating casts give them.
#![tactic(auto)]

ghost use Rattle.std.specs.Prelude.{◌≡◌};
ghost use Rattle.ieee_whole.specs.Whole.{floor_at, round_half_away};

use std::num::truncating_f64_to_u64;

// 2^63, which stands for 0 where 2^63 is added.
const MIDDLE: u64 = 0x8000_0000_0000_0000;
// 2^53: from there on a float has no fraction.
const WHOLE: u64 = 0x20_0000_0000_0000;

// `x.floor() as i64` with 2^63 added, so that it is unsigned.
pub fn floor_at(x: f64) -> u64
    ensures { result ≡ floor_at x }
{
    if x < 9223372036854775808.0 {
        if x >= 0.0 {
            return MIDDLE + truncating_f64_to_u64(x);
        }
        if x > -9223372036854775808.0 {
            let y = -x;
            let u = truncating_f64_to_u64(y);
            if u < WHOLE {
                if (u as f64) < y {
                    return MIDDLE - 1 - u;
                }
                return MIDDLE - u;
            }
            return MIDDLE - u;
        }
        return 0;
    }
    if x >= 9223372036854775808.0 {
        return u64::MAX;
    }
    MIDDLE
}

// `x.round() as u64`: a half goes away from zero.
pub fn round_half_away(x: f64) -> u64
    ensures { result ≡ round_half_away x }
{
    if x > 0.0 {
        // from 2^52 on a float has no fraction, and below it doubling is exact
        if x < 4503599627370496.0 {
            return (truncating_f64_to_u64(x * 2.0) + 1) / 2;
        }
        if x < 18446744073709551616.0 {
            return truncating_f64_to_u64(x);
        }
        return u64::MAX;
    }
    0
}
