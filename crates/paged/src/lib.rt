// Paged memory: pages of 4,096 bytes, each with rights of its own, over the caller's bytes.
#![tactic(auto)]

mod kind;
mod map;
mod page;
mod table;

pub use kind::Paged;
pub use map::PageMap;
pub use table::PageTable;
