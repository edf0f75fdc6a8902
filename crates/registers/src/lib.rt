// Register frames and banks: markers, naming, and the cells of a bank.
#![tactic(auto)]

mod bank;
mod examples;
mod frame;
mod frames;
mod kind;
mod layout;
mod marker;
mod moves;
mod naming;
mod pfs;
mod predicates;
mod previous;
mod window;

pub use bank::{blank_cells, cell, set_cell};
pub use examples::examples_hold;
pub use frame::Frame;
pub use frames::Misfit;
pub use kind::{BlankKind, General, Generals, Kind, Predicates};
pub use marker::FrameMarker;
pub use pfs::{reserved_clear, without_reserved};
pub use predicates::{predicate_word, set_predicate_word};
pub use previous::PreviousState;
pub use window::Window;
