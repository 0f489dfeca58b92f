// filter.rs: the rows of the table, written one after the other into three lent lists.
#![tactic(auto)]

pub mod fill;
mod rows;
