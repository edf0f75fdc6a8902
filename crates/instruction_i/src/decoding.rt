// From a slot to the record.
//
// The functions that come first say what the codes of a format stand for. A code belongs to its format and not to the type that it names,
// so they are no conversions of the types. Where each value of the field has a meaning, they read it themselves and return no option.
// Operands are read where they are used, by first bit and width, as the formats in specs/ have them.
ghost use Rattle.std.specs.Prelude.{◌≡◌, ◌≤◌};
ghost use Rattle.encoding.specs.Fields.{bits};
ghost use Rattle.encoding.specs.Reading.{Found, Reads};
ghost use Rattle.instruction_i.specs.Formats.{Holds, Whole, application_number, part_x, test_c, test_ta, test_tb};

use crate::record::{Application, Integer, Test};
use encoding::{
    Parallel, imm8, imm21, imm44, length, mask17, parted_offset, position, position_from_top,
    short_length, small,
};
use integer::{BitField, Part};

fn test(slot: u64) -> Test
    ensures ta { bits 33 1 slot ≡ test_ta result }
    ensures tb { bits 36 1 slot ≡ test_tb result }
    ensures c { bits 12 1 slot ≡ test_c result }
{
    match (small(slot, 33, 1), small(slot, 36, 1), small(slot, 12, 1)) {
        (0, 0, 0) => Test::Normal,
        (0, 0, _) => Test::Unc,
        (0, _, 0) => Test::Zero(Parallel::And),
        (0, _, _) => Test::Nonzero(Parallel::And),
        (_, 0, 0) => Test::Zero(Parallel::Or),
        (_, 0, _) => Test::Nonzero(Parallel::Or),
        (_, _, 0) => Test::Zero(Parallel::OrAndcm),
        _ => Test::Nonzero(Parallel::OrAndcm),
    }
}

fn part(code: u8) -> Option<Part>
    ensures { Found (λ p. part_x p ≡ code) result }
{
    match code {
        0 => Some(Part::One),
        1 => Some(Part::Two),
        2 => Some(Part::Four),
        _ => None,
    }
}

// No `TryFrom`: that no other register has the number is part of what a decoder promises, and `Found` says it.
fn application(number: u8) -> Option<Application>
    ensures { Found (λ a. application_number a ≡ number) result }
{
    match number {
        64 => Some(Application::Pfs),
        65 => Some(Application::Lc),
        66 => Some(Application::Ec),
        _ => None,
    }
}

// Major opcode 7: shifts by a register, and the count of set bits.
fn shifts(slot: u64) -> Option<Integer>
    requires { bits 37 4 slot ≡ 7 }
    ensures { Reads (Holds slot) result }
{
    let za = small(slot, 36, 1);
    let x2a = small(slot, 34, 2);
    let zb = small(slot, 33, 1);
    let ve = small(slot, 32, 1);
    let x2c = small(slot, 30, 2);
    let x2b = small(slot, 28, 2);
    let r1 = small(slot, 6, 7);
    let r2 = small(slot, 13, 7);
    let r3 = small(slot, 20, 7);
    match (za, x2a, zb, ve, x2c, x2b) {
        (1, 0, 1, 0, 0, 0) => Some(Integer::ShrU { r1, r3, r2 }),
        (1, 0, 1, 0, 0, 2) => Some(Integer::Shr { r1, r3, r2 }),
        (1, 0, 1, 0, 1, 0) => Some(Integer::Shl { r1, r2, r3 }),
        (0, 1, 1, 0, 2, 1) if r2 == 0 => Some(Integer::Popcnt { r1, r3 }),
        _ => None,
    }
}

// Major opcode 5 with x = 1: deposits.
fn deposits(slot: u64) -> Option<Integer>
    requires major { bits 37 4 slot ≡ 5 }
    requires x { bits 33 1 slot ≡ 1 }
    requires x2 { 1 ≤ bits 34 2 slot }
    ensures { Reads (Holds slot) result }
{
    let r1 = small(slot, 6, 7);
    let length = length(slot, 27);
    match (small(slot, 34, 2), small(slot, 26, 1)) {
        (1, 0) => Some(Integer::DepZ {
            r1,
            r2: small(slot, 13, 7),
            field: BitField {
                position: position_from_top(slot, 20),
                length,
            },
        }),
        (1, 1) => Some(Integer::DepZImmediate {
            r1,
            imm: imm8(slot),
            field: BitField {
                position: position_from_top(slot, 20),
                length,
            },
        }),
        (3, _) => Some(Integer::DepBits {
            r1,
            ones: small(slot, 36, 1) == 1,
            r3: small(slot, 20, 7),
            field: BitField {
                position: position_from_top(slot, 14),
                length,
            },
        }),
        _ => None,
    }
}

// Major opcode 5: tests of a bit and of a NaT bit, extracts, shrp, and deposits.
fn bit_fields(slot: u64) -> Option<Integer>
    requires { bits 37 4 slot ≡ 5 }
    ensures { Reads (Holds slot) result }
{
    let r1 = small(slot, 6, 7);
    let r3 = small(slot, 20, 7);
    let p1 = small(slot, 6, 6);
    let p2 = small(slot, 27, 6);
    let field = BitField {
        position: position(slot, 14),
        length: length(slot, 27),
    };
    match (small(slot, 34, 2), small(slot, 33, 1), small(slot, 13, 1)) {
        (0, _, 0) => Some(Integer::Tbit {
            test: test(slot),
            p1,
            p2,
            r3,
            position: field.position,
        }),
        (0, _, _) => Some(Integer::Tnat {
            test: test(slot),
            p1,
            p2,
            r3,
        }),
        (1, 0, 0) => Some(Integer::ExtrU { r1, r3, field }),
        (1, 0, _) => Some(Integer::Extr { r1, r3, field }),
        (3, 0, _) => Some(Integer::Shrp {
            r1,
            r2: small(slot, 13, 7),
            r3,
            count: position(slot, 27),
        }),
        (_, 1, _) => deposits(slot),
        _ => None,
    }
}

// Major opcode 0 with x3 = 0: what x6 tells apart.
fn miscellaneous(slot: u64) -> Option<Integer>
    requires major { bits 37 4 slot ≡ 0 }
    requires x3 { bits 33 3 slot ≡ 0 }
    ensures { Reads (Holds slot) result }
{
    let r1 = small(slot, 6, 7);
    let r2 = small(slot, 13, 7);
    let r3 = small(slot, 20, 7);
    match small(slot, 27, 6) {
        0x00 => Some(Integer::Break { imm: imm21(slot) }),
        0x01 => Some(Integer::Nop { imm: imm21(slot) }),
        0x0a => Some(Integer::ToApplicationImmediate {
            register: application(r3)?,
            imm: imm8(slot),
        }),
        x6 @ 0x10..=0x13 => Some(Integer::Zxt {
            part: part(x6 - 0x10)?,
            r1,
            r3,
        }),
        x6 @ 0x14..=0x17 => Some(Integer::Sxt {
            part: part(x6 - 0x14)?,
            r1,
            r3,
        }),
        0x2a => Some(Integer::ToApplication {
            register: application(r3)?,
            r2,
        }),
        0x30 => Some(Integer::FromIp { r1 }),
        0x31 => Some(Integer::FromBranch {
            r1,
            b2: small(slot, 13, 3),
        }),
        0x32 => Some(Integer::FromApplication {
            r1,
            register: application(r3)?,
        }),
        0x33 => Some(Integer::FromPredicates { r1 }),
        _ => None,
    }
}

// Major opcode 0.
fn moves(slot: u64) -> Option<Integer>
    requires { bits 37 4 slot ≡ 0 }
    ensures { Reads (Holds slot) result }
{
    let r2 = small(slot, 13, 7);
    match small(slot, 33, 3) {
        0 => miscellaneous(slot),
        1 => Some(Integer::ChkS {
            r2,
            offset: parted_offset(slot),
        }),
        2 => Some(Integer::ToRotating { imm: imm44(slot) }),
        3 => Some(Integer::ToPredicates {
            r2,
            mask: mask17(slot),
        }),
        7 => Some(Integer::ToBranch {
            ret: small(slot, 22, 1) == 1,
            b1: small(slot, 6, 3),
            r2,
        }),
        _ => None,
    }
}

// The instruction of the I unit's own that the slot holds.
pub fn decode(slot: u64) -> Option<Integer>
    ensures { Reads (Holds slot) result }
{
    match small(slot, 37, 4) {
        0 => moves(slot),
        4 => Some(Integer::Dep {
            r1: small(slot, 6, 7),
            r2: small(slot, 13, 7),
            r3: small(slot, 20, 7),
            field: BitField {
                position: position_from_top(slot, 31),
                length: short_length(slot, 27),
            },
        }),
        5 => bit_fields(slot),
        7 => shifts(slot),
        _ => None,
    }
}

// Each layout of this crate is of 41 bits.
pub fn layouts_are_whole()
    ensures { Whole }
{}
