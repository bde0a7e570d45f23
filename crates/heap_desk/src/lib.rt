// Sheets with saved sessions in heap mode: the lines of a session and its text, from a fresh session on, or from a saved one.
#![tactic(auto)]

pub mod fresh;
pub mod loaded;
pub mod run;
