// Instructions as text, in the syntax of the GNU assembler and as its disassembler writes them.
#![tactic(auto)]

mod alu;
mod branch_unit;
mod compare;
mod completer;
mod extended;
mod integer_unit;
mod line;
mod memory_unit;

pub use line::Line;
