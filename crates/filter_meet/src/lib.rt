// filter.rs: the elements that a row of the table meets, and their weights.
#![tactic(auto)]

pub mod gather;
pub mod prepare;
pub mod rising;
mod walk;
