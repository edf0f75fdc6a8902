// The records of the A-type instructions: integer arithmetic, logic and compares, for the I unit and the M unit.
use encoding::Parallel;
use integer::Scale;

// What is computed of two registers.
#[derive(Clone, Copy, PartialEq, Eq, Debug)]
pub enum RegisterOperation {
    Add,
    AddOne,
    Sub,
    SubOne,
    Addp4,
    And,
    Andcm,
    Or,
    Xor,
}

// What is computed of an immediate and a register.
#[derive(Clone, Copy, PartialEq, Eq, Debug)]
pub enum ImmediateOperation {
    Sub,
    And,
    Andcm,
    Or,
    Xor,
}

// How much of its sources a compare reads: all eight bytes, or the low four.
#[derive(Clone, Copy, PartialEq, Eq, Debug)]
pub enum CompareSize {
    Eight,
    Four,
}

// The relations of the compare types none and unc.
#[derive(Clone, Copy, PartialEq, Eq, Debug)]
pub enum Relation {
    Lt,
    Ltu,
    Eq,
}

// A compare type with its relation. A parallel type has only eq and ne, unless the first source is register 0.
#[derive(Clone, Copy, PartialEq, Eq, Debug)]
pub enum Compare {
    Normal(Relation),
    Unc(Relation),
    Eq(Parallel),
    Ne(Parallel),
}

// The relations of register 0 to another register, for the parallel types.
#[derive(Clone, Copy, PartialEq, Eq, Debug)]
pub enum ZeroRelation {
    Gt,
    Le,
    Ge,
    Lt,
}

// An A-type instruction, but for its qualifying predicate. An immediate is the word that the operation takes, with its sign in all
// bits above.
#[derive(Clone, Copy, PartialEq, Eq, Debug)]
pub enum Alu {
    Register {
        operation: RegisterOperation,
        r1: u8,
        r2: u8,
        r3: u8,
    },
    Shladd {
        scale: Scale,
        r1: u8,
        r2: u8,
        r3: u8,
    },
    Shladdp4 {
        scale: Scale,
        r1: u8,
        r2: u8,
        r3: u8,
    },
    Immediate {
        operation: ImmediateOperation,
        r1: u8,
        imm: u64,
        r3: u8,
    },
    Adds {
        r1: u8,
        imm: u64,
        r3: u8,
    },
    Addp4 {
        r1: u8,
        imm: u64,
        r3: u8,
    },
    Addl {
        r1: u8,
        imm: u64,
        r3: u8,
    },
    Compare {
        size: CompareSize,
        compare: Compare,
        p1: u8,
        p2: u8,
        r2: u8,
        r3: u8,
    },
    CompareZero {
        size: CompareSize,
        relation: ZeroRelation,
        parallel: Parallel,
        p1: u8,
        p2: u8,
        r3: u8,
    },
    CompareImmediate {
        size: CompareSize,
        compare: Compare,
        p1: u8,
        p2: u8,
        imm: u64,
        r3: u8,
    },
}
