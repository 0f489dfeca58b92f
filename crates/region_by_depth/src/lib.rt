// Marks by depth (region.rs, `passive`): the elements whose middle is near a triangle of a kept set. The middles are filed by cells, and about each triangle
// the cells of its box and those next to them are walked. Internal: lists are as long as needed.
#![tactic(auto)]

pub mod middles;
pub mod reach;
pub mod walk;
