// From a slot to the record.
//
// The functions that come first say what the codes of a format stand for. A code belongs to its format and not to the type that it names,
// so they are no conversions of the types. Where each value of the field has a meaning, they read it themselves and return no option.
// Operands are read where they are used, by first bit and width, as the formats in specs/ have them.
ghost use Rattle.std.specs.Prelude.{◌≡◌, ◌≤◌};
ghost use Rattle.encoding.specs.Fields.{bits};
ghost use Rattle.encoding.specs.Reading.{Found, Reads};
ghost use Rattle.instruction_m.specs.Formats.{Holds, IncrementStands, UpdateStands, Whole, application_number, clear_x3, hint_code, hint_of, size_x, type_x};

use crate::record::{Application, BaseUpdate, Clear, Hint, LoadType, Memory};
use encoding::{imm8, imm9, imm21, offset, parted_offset, small};
use memory::Size;

fn size(slot: u64) -> Size
    ensures { bits 30 2 slot ≡ size_x result }
{
    match small(slot, 30, 2) {
        0 => Size::One,
        1 => Size::Two,
        2 => Size::Four,
        _ => Size::Eight,
    }
}

fn load_type(x: u8) -> Option<LoadType>
    ensures { Found (λ t. type_x t ≡ x) result }
{
    match x {
        0 => Some(LoadType::Normal),
        1 => Some(LoadType::S),
        2 => Some(LoadType::A),
        3 => Some(LoadType::Sa),
        4 => Some(LoadType::Bias),
        5 => Some(LoadType::Acq),
        8 => Some(LoadType::CClr),
        9 => Some(LoadType::CNc),
        10 => Some(LoadType::CClrAcq),
        _ => None,
    }
}

#[tactic(auto, unfolding(crate::specs::Formats::hint_of))]
fn hint(slot: u64) -> Hint
    ensures value { result ≡ hint_of (bits 28 2 slot) }
    ensures field { bits 28 2 slot ≡ hint_code result }
{
    match small(slot, 28, 2) {
        0 => Hint::None,
        1 => Hint::Nt1,
        2 => Hint::Two,
        _ => Hint::Nta,
    }
}

fn clear(x3: u8) -> Option<Clear>
    ensures { Found (λ c. clear_x3 c ≡ x3) result }
{
    match x3 {
        4 => Some(Clear::Nc),
        5 => Some(Clear::Clr),
        _ => None,
    }
}

// No `TryFrom`: that no other register has the number is part of what a decoder promises, and `Found` says it.
fn application(number: u8) -> Option<Application>
    ensures { Found (λ a. application_number a ≡ number) result }
{
    match number {
        32 => Some(Application::Ccv),
        36 => Some(Application::Unat),
        _ => None,
    }
}

// Loads, with this update of the base.
fn loads(slot: u64, update: Option<BaseUpdate>) -> Option<Memory>
    requires load { bits 32 4 slot ≤ 11 }
    requires update { UpdateStands slot update }
    ensures { Reads (Holds slot) result }
{
    let r1 = small(slot, 6, 7);
    let r3 = small(slot, 20, 7);
    let hint = hint(slot);
    match (small(slot, 32, 4), small(slot, 30, 2)) {
        (6, 3) => Some(Memory::Fill {
            hint,
            r1,
            r3,
            update,
        }),
        (code, _) => {
            let load_type = load_type(code)?;
            Some(Memory::Load {
                load_type,
                size: size(slot),
                hint,
                r1,
                r3,
                update,
            })
        }
    }
}

// Stores, with this increment of the base.
fn stores(slot: u64, increment: Option<u64>) -> Option<Memory>
    requires store { 12 ≤ bits 32 4 slot }
    requires increment { IncrementStands slot increment }
    ensures { Reads (Holds slot) result }
{
    let r2 = small(slot, 13, 7);
    let r3 = small(slot, 20, 7);
    let hint = hint(slot);
    match (small(slot, 32, 4), small(slot, 30, 2)) {
        (code @ (12 | 13), _) => Some(Memory::Store {
            release: code == 13,
            size: size(slot),
            hint,
            r3,
            r2,
            increment,
        }),
        (14, 3) => Some(Memory::Spill {
            hint,
            r3,
            r2,
            increment,
        }),
        _ => None,
    }
}

// Major opcode 0.
fn management(slot: u64) -> Option<Memory>
    requires { bits 37 4 slot ≡ 0 }
    ensures { Reads (Holds slot) result }
{
    let r1 = small(slot, 6, 7);
    match (small(slot, 33, 3), small(slot, 31, 2), small(slot, 27, 4)) {
        (0, 0, 0) => Some(Memory::Break { imm: imm21(slot) }),
        (0, 0, 1) => Some(Memory::Nop { imm: imm21(slot) }),
        (0, 1, 0) => Some(Memory::Invala),
        (0, 1, 2) => Some(Memory::InvalaE { r1 }),
        (0, 2, 2) => Some(Memory::Mf),
        (0, 2, 8) => Some(Memory::ToApplicationImmediate {
            register: application(small(slot, 20, 7))?,
            imm: imm8(slot),
        }),
        (0, _, _) => None,
        (x3, _, _) => Some(Memory::ChkA {
            clear: clear(x3)?,
            r1,
            offset: offset(slot),
        }),
    }
}

// Major opcode 1.
fn moves(slot: u64) -> Option<Memory>
    requires { bits 37 4 slot ≡ 1 }
    ensures { Reads (Holds slot) result }
{
    let r1 = small(slot, 6, 7);
    let r2 = small(slot, 13, 7);
    let r3 = small(slot, 20, 7);
    match (small(slot, 33, 3), small(slot, 27, 6)) {
        (0, 0x22) => Some(Memory::FromApplication {
            r1,
            register: application(r3)?,
        }),
        (0, 0x2a) => Some(Memory::ToApplication {
            register: application(r3)?,
            r2,
        }),
        (1, _) => Some(Memory::ChkS {
            r2,
            offset: parted_offset(slot),
        }),
        (6, _) => Some(Memory::Alloc {
            r1,
            sof: r2,
            sol: r3,
            sor: small(slot, 27, 4),
        }),
        _ => None,
    }
}

// The instruction of the M unit's own that the slot holds.
pub fn decode(slot: u64) -> Option<Memory>
    ensures { Reads (Holds slot) result }
{
    let x = small(slot, 27, 1);
    let m = small(slot, 36, 1);
    let load = small(slot, 32, 4) <= 11;
    match small(slot, 37, 4) {
        0 => management(slot),
        1 => moves(slot),
        4 if x == 0 && load && m == 0 => loads(slot, None),
        4 if x == 0 && load => loads(slot, Some(BaseUpdate::Register(small(slot, 13, 7)))),
        4 if x == 0 && m == 0 => stores(slot, None),
        5 if load => loads(slot, Some(BaseUpdate::Immediate(imm9(slot, 13)))),
        5 => stores(slot, Some(imm9(slot, 6))),
        _ => None,
    }
}

// Each layout of this crate is of 41 bits.
pub fn layouts_are_whole()
    ensures { Whole }
{}
