// How far a boundary's corners, seen in a plane, are from it (region.rs, `asymmetry`). Internal: for `region_asymmetry`.
#![tactic(auto)]

pub mod far;
pub mod fill;
