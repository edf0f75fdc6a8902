// Listings: the slots of bundles as lines of text.
#![tactic(auto)]

mod hex;
mod lines;
mod refusal;
mod whole;

pub use lines::list_bundle;
pub use refusal::Refusal;
pub use whole::list_image;
