// The B unit's instructions: their records and formats.
#![tactic(auto)]

mod decoding;
mod predicate;
mod record;

pub use decoding::{decode, layouts_are_whole};
pub use record::{
    Branch, Counted, Hints, Indirect, Predicted, Prediction, Prefetch, Relative, Whether,
};
