// From a stiffness back to its level.
#![tactic(auto)]

pub mod numbers;
mod table;

ghost use Rattle.std.specs.Prelude.{◌≡◌};
ghost use Rattle.topo_moduli.specs.Moduli.{level_below, level_with};

// The greatest level whose modulus is not above x, from the lowest modulus to the highest.
pub fn level_below(x: f64) -> Option<u16>
    ensures { result ≡ level_below x }
{
    let inside = (table::modulus_at(0) <= x) & (x <= table::modulus_at(1000));
    if !inside {
        return None;
    }
    let level = table::not_above(x) - 1;
    Some(level as u16)
}

// The level that has the modulus m.
pub fn level_with(m: f64) -> Option<u16>
    ensures { result ≡ level_with m }
{
    let level = level_below(m)?;
    if table::modulus_at(level as usize) == m {
        return Some(level);
    }
    None
}
