// Protection: a memory with rights taken away in ranges of addresses.
#![tactic(auto)]

mod protecting;
mod range;
mod ranges;

pub use protecting::Protection;
pub use range::Range;
pub use ranges::Ranges;
