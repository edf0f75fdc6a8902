// Instructions: their records, and decoding.
#![tactic(auto)]

mod decoding;
mod record;

pub use decoding::{decode, decode_long, layouts_are_whole};
pub use record::{Extended, Floating, Instruction, Operation};
