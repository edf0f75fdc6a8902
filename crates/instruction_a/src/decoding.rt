// From a slot to the record.
//
// The functions that come first say what the codes of a format stand for. A code belongs to its format and not to the type that it names,
// so they are no conversions of the types. Where each value of the field has a meaning, they read it themselves and return no option.
// Operands are read where they are used, by first bit and width, as the formats in specs/ have them.
ghost use Rattle.std.specs.Prelude.{◌≡◌, ◌+◌, ◌-◌, ◌≤◌};
ghost use Rattle.encoding.specs.Fields.{bits};
ghost use Rattle.encoding.specs.Reading.{Found, Reads};
ghost use Rattle.integer.specs.Places.{scale_of};
ghost use Rattle.instruction_a.specs.Formats.{Holds, Whole, compare_c, compare_major, compare_ta, immediate_x2b, immediate_x4, parallel_major, register_x2b, register_x4, relation_major, size_x, zero_c, zero_ta};

use crate::record::{
    Alu, Compare, CompareSize, ImmediateOperation, RegisterOperation, Relation, ZeroRelation,
};
use encoding::{Parallel, imm8, imm14, imm22, small};
use integer::Scale;

fn register_operation(x4: u8, x2b: u8) -> Option<RegisterOperation>
    ensures { Found (λ o. (register_x4 o ≡ x4) × (register_x2b o ≡ x2b)) result }
{
    match (x4, x2b) {
        (0, 0) => Some(RegisterOperation::Add),
        (0, 1) => Some(RegisterOperation::AddOne),
        (1, 0) => Some(RegisterOperation::SubOne),
        (1, 1) => Some(RegisterOperation::Sub),
        (2, 0) => Some(RegisterOperation::Addp4),
        (3, 0) => Some(RegisterOperation::And),
        (3, 1) => Some(RegisterOperation::Andcm),
        (3, 2) => Some(RegisterOperation::Or),
        (3, 3) => Some(RegisterOperation::Xor),
        _ => None,
    }
}

fn immediate_operation(x4: u8, x2b: u8) -> Option<ImmediateOperation>
    ensures { Found (λ o. (immediate_x4 o ≡ x4) × (immediate_x2b o ≡ x2b)) result }
{
    match (x4, x2b) {
        (9, 1) => Some(ImmediateOperation::Sub),
        (11, 0) => Some(ImmediateOperation::And),
        (11, 1) => Some(ImmediateOperation::Andcm),
        (11, 2) => Some(ImmediateOperation::Or),
        (11, 3) => Some(ImmediateOperation::Xor),
        _ => None,
    }
}

fn scale(slot: u64) -> Scale
    ensures { bits 27 2 slot ≡ scale_of result - 1 }
{
    match small(slot, 27, 2) {
        0 => Scale::One,
        1 => Scale::Two,
        2 => Scale::Three,
        _ => Scale::Four,
    }
}

// Major opcode 8 with x2a = 0: what x4 tells apart.
fn registers(slot: u64) -> Option<Alu>
    requires major { bits 37 4 slot ≡ 8 }
    requires x2a { bits 34 2 slot ≡ 0 }
    requires ve { bits 33 1 slot ≡ 0 }
    ensures { Reads (Holds slot) result }
{
    let x4 = small(slot, 29, 4);
    let x2b = small(slot, 27, 2);
    let r1 = small(slot, 6, 7);
    let r2 = small(slot, 13, 7);
    let r3 = small(slot, 20, 7);
    match x4 {
        0..=3 => Some(Alu::Register {
            operation: register_operation(x4, x2b)?,
            r1,
            r2,
            r3,
        }),
        4 => Some(Alu::Shladd {
            scale: scale(slot),
            r1,
            r2,
            r3,
        }),
        6 => Some(Alu::Shladdp4 {
            scale: scale(slot),
            r1,
            r2,
            r3,
        }),
        _ => Some(Alu::Immediate {
            operation: immediate_operation(x4, x2b)?,
            r1,
            imm: imm8(slot),
            r3,
        }),
    }
}

// A slot with the major opcode of a compare.
#[derive(Clone, Copy)]
struct CompareSlot {
    slot: u64,
    ghost low: { 12 ≤ bits 37 4 slot },
    ghost high: { bits 37 4 slot ≤ 14 },
}

impl CompareSlot {
    // What the codes stand for; no conversions of the types, as above.
    fn relation(self) -> Relation
        ensures { bits 37 4 self.slot ≡ relation_major result }
    {
        match small(self.slot, 37, 4) {
            12 => Relation::Lt,
            13 => Relation::Ltu,
            _ => Relation::Eq,
        }
    }

    fn parallel(self) -> Parallel
        ensures { bits 37 4 self.slot ≡ parallel_major result }
    {
        match small(self.slot, 37, 4) {
            12 => Parallel::And,
            13 => Parallel::Or,
            _ => Parallel::OrAndcm,
        }
    }

    fn compare(self) -> Compare
        ensures major { bits 37 4 self.slot ≡ compare_major result }
        ensures ta { bits 33 1 self.slot ≡ compare_ta result }
        ensures c { bits 12 1 self.slot ≡ compare_c result }
    {
        match (small(self.slot, 33, 1), small(self.slot, 12, 1)) {
            (0, 0) => Compare::Normal(self.relation()),
            (0, _) => Compare::Unc(self.relation()),
            (_, 0) => Compare::Eq(self.parallel()),
            _ => Compare::Ne(self.parallel()),
        }
    }

    fn zero_relation(self) -> ZeroRelation
        ensures ta { bits 33 1 self.slot ≡ zero_ta result }
        ensures c { bits 12 1 self.slot ≡ zero_c result }
    {
        match (small(self.slot, 33, 1), small(self.slot, 12, 1)) {
            (0, 0) => ZeroRelation::Gt,
            (0, _) => ZeroRelation::Le,
            (_, 0) => ZeroRelation::Ge,
            _ => ZeroRelation::Lt,
        }
    }

    // A compare of a register with an immediate.
    fn immediate(self, size: CompareSize) -> Alu
        requires { bits 34 2 self.slot ≡ 2 + size_x size }
        ensures { Reads (Holds self.slot) (Some result) }
    {
        Alu::CompareImmediate {
            size,
            compare: self.compare(),
            p1: small(self.slot, 6, 6),
            p2: small(self.slot, 27, 6),
            imm: imm8(self.slot),
            r3: small(self.slot, 20, 7),
        }
    }

    // A compare of two registers, or of register 0 with another.
    fn registers(self, size: CompareSize) -> Option<Alu>
        requires { bits 34 2 self.slot ≡ size_x size }
        ensures { Reads (Holds self.slot) result }
    {
        let p1 = small(self.slot, 6, 6);
        let p2 = small(self.slot, 27, 6);
        let r2 = small(self.slot, 13, 7);
        let r3 = small(self.slot, 20, 7);
        match small(self.slot, 36, 1) {
            0 => Some(Alu::Compare {
                size,
                compare: self.compare(),
                p1,
                p2,
                r2,
                r3,
            }),
            _ if r2 == 0 => Some(Alu::CompareZero {
                size,
                relation: self.zero_relation(),
                parallel: self.parallel(),
                p1,
                p2,
                r3,
            }),
            _ => None,
        }
    }

    fn decode(self) -> Option<Alu>
        ensures { Reads (Holds self.slot) result }
    {
        match small(self.slot, 34, 2) {
            0 => self.registers(CompareSize::Eight),
            1 => self.registers(CompareSize::Four),
            2 => Some(self.immediate(CompareSize::Eight)),
            _ => Some(self.immediate(CompareSize::Four)),
        }
    }
}

// The A-type instruction that the slot holds.
pub fn decode(slot: u64) -> Option<Alu>
    ensures { Reads (Holds slot) result }
{
    let major = small(slot, 37, 4);
    let x2a = small(slot, 34, 2);
    let ve = small(slot, 33, 1);
    let r1 = small(slot, 6, 7);
    let r3 = small(slot, 20, 7);
    match major {
        8 if x2a == 0 && ve == 0 => registers(slot),
        8 if x2a == 2 && ve == 0 => Some(Alu::Adds {
            r1,
            imm: imm14(slot),
            r3,
        }),
        8 if x2a == 3 && ve == 0 => Some(Alu::Addp4 {
            r1,
            imm: imm14(slot),
            r3,
        }),
        9 => Some(Alu::Addl {
            r1,
            imm: imm22(slot),
            r3: small(slot, 20, 2),
        }),
        12..=14 => CompareSlot { slot }.decode(),
        _ => None,
    }
}

// Each layout of this crate is of 41 bits.
pub fn layouts_are_whole()
    ensures { Whole }
{}
