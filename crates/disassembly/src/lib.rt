// Images as assembler text.
#![tactic(auto)]

mod image;
mod slot;

pub use image::Disassembly;
