// From a slot to the instruction.
ghost use Rattle.std.specs.Prelude.{◌≡◌};
ghost use Rattle.encoding.specs.Reading.{Reads};
ghost use Rattle.instruction.specs.Floating.{Holds as FloatingHolds};
ghost use Rattle.instruction.specs.Long.{Holds as LongHolds, Whole as LongWhole};
ghost use Rattle.instruction.specs.Floating.{Whole as FloatingWhole};
ghost use Rattle.instruction.specs.Units.{Held, HeldLong, On, predicate_of};

use crate::record::{Extended, Floating, Instruction, Operation};
use bundle::Unit;
use encoding::{imm21, imm62, imm64, small};

fn floating(slot: u64) -> Option<Floating>
    ensures { Reads (FloatingHolds slot) result }
{
    match (small(slot, 37, 4), small(slot, 33, 1), small(slot, 27, 6)) {
        (0, 0, 0x00) => Some(Floating::Break { imm: imm21(slot) }),
        (0, 0, 0x01) => Some(Floating::Nop { imm: imm21(slot) }),
        _ => None,
    }
}

fn extended(long: u64, slot: u64) -> Option<Extended>
    ensures { Reads (LongHolds long slot) result }
{
    let x3 = small(slot, 33, 3);
    let x6 = small(slot, 27, 6);
    match small(slot, 37, 4) {
        0 if x3 == 0 && x6 == 0x00 => Some(Extended::Break {
            imm: imm62(long, slot),
        }),
        0 if x3 == 0 && x6 == 0x01 => Some(Extended::Nop {
            imm: imm62(long, slot),
        }),
        6 if small(slot, 20, 1) == 0 => Some(Extended::Movl {
            r1: small(slot, 6, 7),
            imm: imm64(long, slot),
        }),
        _ => None,
    }
}

// The operation that the slot of this unit holds. The A-type instructions have the major opcodes from 8 on.
fn operation(unit: Unit, slot: u64) -> Option<Operation>
    ensures { Reads (On unit slot) result }
{
    let alu = small(slot, 37, 4) >= 8;
    match unit {
        Unit::Memory | Unit::Integer if alu => {
            Some(Operation::Alu(instruction_a::decode(slot)?))
        }
        Unit::Memory => Some(Operation::Memory(instruction_m::decode(slot)?)),
        Unit::Integer => Some(Operation::Integer(instruction_i::decode(slot)?)),
        Unit::Floating => Some(Operation::Floating(floating(slot)?)),
        Unit::Branch => Some(Operation::Branch(instruction_b::decode(slot)?)),
        Unit::Long | Unit::Extended => None,
    }
}

// The qualifying predicate of an operation that stands in this slot: predicate 0, which is always true, where the format has none.
fn predicate(slot: u64, operation: Operation) -> u8
    ensures { result ≡ predicate_of slot operation }
{
    match operation {
        Operation::Branch(i) if !i.predicated() => 0,
        _ => small(slot, 0, 6),
    }
}

// The instruction that the slot of this unit holds; none for the L slot or the X slot alone.
pub fn decode(unit: Unit, slot: u64) -> Option<Instruction>
    ensures { Reads (Held unit slot) result }
{
    let operation = operation(unit, slot)?;
    Some(Instruction {
        qp: predicate(slot, operation),
        operation,
    })
}

// The instruction that an L slot and the X slot after it hold together: two arguments, as a bundle's split gives them.
pub fn decode_long(long: u64, slot: u64) -> Option<Instruction>
    ensures { Reads (HeldLong long slot) result }
{
    Some(Instruction {
        qp: small(slot, 0, 6),
        operation: Operation::Extended(extended(long, slot)?),
    })
}

// Each layout of this crate is of 41 bits, or of two times 41.
pub fn layouts_are_whole()
    ensures floating { FloatingWhole }
    ensures long { LongWhole }
{}
