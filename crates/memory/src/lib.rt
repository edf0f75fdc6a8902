// Memories: what one means, the interfaces through which it is read and written, and the kinds of it.
#![tactic(auto)]

mod access;
mod bytes;
mod flat;
mod image;
mod readable;
mod refusal;
mod writable;

pub use access::{Access, MissingRight, Right, Rights, Size};
pub use bytes::{covers, load_from, store_into};
pub use flat::Flat;
pub use image::Image;
pub use readable::Readable;
pub use refusal::Refusal;
pub use writable::Writable;
