// filter.rs: the middles' box, the room that a row needs, and the lists of a build. The definitions of the table and of its build stand in specs/.
#![tactic(auto)]

pub mod grid;
pub mod room;
pub mod work;
