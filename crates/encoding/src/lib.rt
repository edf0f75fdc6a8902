// Bit fields of an instruction slot, and the immediates that they make up.
#![tactic(auto)]

mod fields;
mod immediate;
mod place;
mod record;

pub use fields::{field, small};
pub use immediate::{
    imm8, imm9, imm14, imm21, imm22, imm44, imm62, imm64, mask17, offset, parted_offset, tag,
};
pub use place::{length, position, position_from_top, short_length};
pub use record::Parallel;
