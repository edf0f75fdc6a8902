// The A-type instructions: their records and formats.
#![tactic(auto)]

mod decoding;
mod record;

pub use decoding::{decode, layouts_are_whole};
pub use record::{
    Alu, Compare, CompareSize, ImmediateOperation, RegisterOperation, Relation, ZeroRelation,
};
