// The library that hosts in C and Rust link: each entry hands over to the function of its name in `desk`, `native`, `saved_native` or `saved_desk`, and says the same.
#![tactic(auto)]

pub mod counts;
pub mod heap_mode;
pub mod list_mode;
pub mod saved_heap;
pub mod saved_list;
pub mod saved_sheets;
pub mod sheets;
