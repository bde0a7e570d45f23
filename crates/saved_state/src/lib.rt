// What a saved text says of a session's memory: numbers of its lines from the memory, and the memory from them; and the lines that both modes write.
#![tactic(auto)]

pub mod copying;
pub mod judging;
pub mod loading;
pub mod memory;
pub mod saving;
pub mod writing;
