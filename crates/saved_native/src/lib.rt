// The entries of saved sessions that hosts in C and Rust link: a text's counts, writing and reading, in either mode, on memory that they lend.
#![tactic(auto)]

pub mod counts;
pub mod heap_reading;
pub mod heap_saving;
pub mod list_reading;
pub mod list_saving;
