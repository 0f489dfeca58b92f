// A recorded sample of the Rust's answers, for the programs that replay one: its words and lists, and the lines that are told of it. docs/REPLAY.md has
// the format.
#![tactic(auto)]

pub mod read;
pub mod tell;
pub mod words;
