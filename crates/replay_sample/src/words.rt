// The sample's words: 64 bits each, little-endian. Past the end every word is 0.
ghost use Rattle.std.specs.Prelude.{◌≡◌};
ghost use Rattle.replay_sample.specs.Same.{alike};

use std::io::Read;

// A read that fails counts as the end.
pub fn word(sample: &mut impl Read) -> u64 {
    let mut bytes = [0; 8];
    let _ = sample.read_exact(&mut bytes);
    u64::from_le_bytes(bytes)
}

pub fn number(sample: &mut impl Read) -> f64 {
    ieee_bits::from_bits(word(sample))
}

// 01: "Bits are compared with both zeros as one and all not-a-numbers as one."
pub fn same(x: f64, y: f64) -> bool
    ensures { result ≡ alike x y }
{
    (x == y) | ((x != x) & (y != y))
}
