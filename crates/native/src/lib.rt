// The entries of sessions that hosts in C and Rust link: a fresh session and a list of calls, in either mode, on memory that they lend.
#![tactic(auto)]

pub mod heap_mode;
pub mod list_mode;
pub mod small;
