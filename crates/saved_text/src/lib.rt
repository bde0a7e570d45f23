// The text of a saved session: numbers in fields and lines, and the form of the whole.
#![tactic(auto)]

pub mod cursor;
pub mod form;
pub mod letters;
pub mod number;
pub mod sink;
pub mod writing;
