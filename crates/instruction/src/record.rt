// Instructions of every unit.
use instruction_a::Alu;
use instruction_b::Branch;
use instruction_i::Integer;
use instruction_m::Memory;

// An instruction of the F unit, but for its qualifying predicate.
#[derive(Clone, Copy, PartialEq, Eq, Debug)]
pub enum Floating {
    Nop { imm: u64 },
    Break { imm: u64 },
}

// An instruction of the L slot and the X slot together, but for its qualifying predicate.
#[derive(Clone, Copy, PartialEq, Eq, Debug)]
pub enum Extended {
    Movl { r1: u8, imm: u64 },
    Nop { imm: u64 },
    Break { imm: u64 },
}

#[derive(Clone, Copy, PartialEq, Eq, Debug)]
pub enum Operation {
    Alu(Alu),
    Integer(Integer),
    Memory(Memory),
    Branch(Branch),
    Floating(Floating),
    Extended(Extended),
}

// An operation under its qualifying predicate; one whose format has none is under predicate 0, which is always true.
#[derive(Clone, Copy, PartialEq, Eq, Debug)]
pub struct Instruction {
    pub qp: u8,
    pub operation: Operation,
}
