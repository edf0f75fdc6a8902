// Bundles: 128 bits that hold a template and three instruction slots.
#![tactic(auto)]

mod split;
mod template;

pub use split::Bundle;
pub use template::{Template, Unit, UnknownTemplate};
