// The text of an instruction.
use crate::alu::write_alu;
use crate::branch_unit::write_branch;
use crate::extended::{write_extended, write_floating};
use crate::integer_unit::write_integer;
use crate::memory_unit::write_memory;
use instruction::{Instruction, Operation};
use instruction_m::Memory;
use std::fmt;

// An instruction of the bundle at this address, from which branches count their targets.
#[derive(Clone, Copy)]
pub struct Line {
    pub address: u64,
    pub instruction: Instruction,
}

// The predicate that is written: none is before alloc, which must stand under predicate 0, and predicate 0 is left out.
fn written_predicate(qp: u8, operation: Operation) -> Option<u8> {
    match operation {
        Operation::Memory(Memory::Alloc { .. }) => None,
        _ if qp == 0 => None,
        _ => Some(qp),
    }
}

impl fmt::Display for Line {
    fn fmt<W: fmt::Write>(&self, f: &mut fmt::Formatter<W>) -> fmt::Result {
        let Line {
            address,
            instruction: Instruction { qp, operation },
        } = *self;
        if let Some(predicate) = written_predicate(qp, operation) {
            write!(f, "(p{predicate:02}) ")?;
        }
        match operation {
            Operation::Alu(alu) => write_alu(f, alu),
            Operation::Integer(integer) => write_integer(f, address, integer),
            Operation::Memory(memory) => write_memory(f, address, memory),
            Operation::Branch(branch) => write_branch(f, address, qp, branch),
            Operation::Floating(floating) => write_floating(f, floating),
            Operation::Extended(extended) => write_extended(f, extended),
        }
    }
}
