// Tables of advanced loads (ALATs): what one means, the interface of every kind, and the kinds of it.
#![tactic(auto)]

mod associative;
mod direct;
mod entry;
mod none;
mod table;

pub use associative::FullyAssociative;
pub use direct::DirectMapped;
pub use entry::Entry;
pub use none::NoEntries;
pub use table::Alat;
