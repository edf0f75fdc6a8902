// The text of the A-type instructions.
use crate::compare::Completers;
use instruction_a::{Alu, CompareSize, ImmediateOperation, RegisterOperation};
use std::fmt;

// Functions and no `Display`: the enums are another crate's, where they have no text.

// The mnemonic, and what follows the registers: the third source of two operations is the number 1.
fn register_text(operation: RegisterOperation) -> (&'static str, &'static str) {
    match operation {
        RegisterOperation::Add => ("add", ""),
        RegisterOperation::AddOne => ("add", ",1"),
        RegisterOperation::Sub => ("sub", ""),
        RegisterOperation::SubOne => ("sub", ",1"),
        RegisterOperation::Addp4 => ("addp4", ""),
        RegisterOperation::And => ("and", ""),
        RegisterOperation::Andcm => ("andcm", ""),
        RegisterOperation::Or => ("or", ""),
        RegisterOperation::Xor => ("xor", ""),
    }
}

fn immediate_text(operation: ImmediateOperation) -> &'static str {
    match operation {
        ImmediateOperation::Sub => "sub",
        ImmediateOperation::And => "and",
        ImmediateOperation::Andcm => "andcm",
        ImmediateOperation::Or => "or",
        ImmediateOperation::Xor => "xor",
    }
}

fn compare_text(size: CompareSize) -> &'static str {
    match size {
        CompareSize::Eight => "cmp",
        CompareSize::Four => "cmp4",
    }
}

// One arm for each record. An addition of 0, and one to register 0, are written as moves.
pub(crate) fn write_alu<W: fmt::Write>(f: &mut fmt::Formatter<W>, alu: Alu) -> fmt::Result {
    match alu {
        Alu::Register {
            operation,
            r1,
            r2,
            r3,
        } => {
            let (mnemonic, one) = register_text(operation);
            write!(f, "{mnemonic} r{r1}=r{r2},r{r3}{one}")
        }
        Alu::Shladd { scale, r1, r2, r3 } => {
            write!(f, "shladd r{r1}=r{r2},{},r{r3}", scale.bits())
        }
        Alu::Shladdp4 { scale, r1, r2, r3 } => {
            write!(f, "shladdp4 r{r1}=r{r2},{},r{r3}", scale.bits())
        }
        Alu::Immediate {
            operation,
            r1,
            imm,
            r3,
        } => {
            let mnemonic = immediate_text(operation);
            write!(f, "{mnemonic} r{r1}={},r{r3}", imm.cast_signed())
        }
        Alu::Adds { r1, imm: 0, r3 } => write!(f, "mov r{r1}=r{r3}"),
        Alu::Adds { r1, imm, r3 } => write!(f, "adds r{r1}={},r{r3}", imm.cast_signed()),
        Alu::Addp4 { r1, imm, r3 } => write!(f, "addp4 r{r1}={},r{r3}", imm.cast_signed()),
        Alu::Addl { r1, imm, r3: 0 } => write!(f, "mov r{r1}={}", imm.cast_signed()),
        Alu::Addl { r1, imm, r3 } => write!(f, "addl r{r1}={},r{r3}", imm.cast_signed()),
        Alu::Compare {
            size,
            compare,
            p1,
            p2,
            r2,
            r3,
        } => {
            let compare = Completers::from(compare);
            write!(f, "{}{compare} p{p1},p{p2}=r{r2},r{r3}", compare_text(size))
        }
        Alu::CompareZero {
            size,
            relation,
            parallel,
            p1,
            p2,
            r3,
        } => {
            let compare = Completers::of_zero(relation, parallel);
            write!(f, "{}{compare} p{p1},p{p2}=r0,r{r3}", compare_text(size))
        }
        Alu::CompareImmediate {
            size,
            compare,
            p1,
            p2,
            imm,
            r3,
        } => {
            let compare = Completers::from(compare);
            let imm = imm.cast_signed();
            write!(f, "{}{compare} p{p1},p{p2}={imm},r{r3}", compare_text(size))
        }
    }
}
