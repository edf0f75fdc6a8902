// Integer operations on 64-bit words, by the names of the instructions that use them.
#![tactic(auto)]

mod bits;
mod compare;
mod extend;
mod field;
mod logic;
mod place;
mod shift;
mod sum;

pub use bits::{popcnt, tbit};
pub use compare::Relation;
pub use extend::{Part, sign_extend, sxt, zxt};
pub use field::{dep, dep_z, extr, extr_u};
pub use logic::{and, andcm, or, xor};
pub use place::{BitField, Length, Position, Scale};
pub use shift::{shl, shr, shr_u, shrp};
pub use sum::{add, add_one, addp4, shladd, shladdp4, sub, sub_one};
