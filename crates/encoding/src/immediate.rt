// Immediates, put together from the parts in which they stand in a slot. Beside its value each function says that the parts are
// found again in it.
#![tactic(auto, unfolding(crate::specs::Immediates::signed8, crate::specs::Immediates::signed9, crate::specs::Immediates::signed14, crate::specs::Immediates::signed22, crate::specs::Immediates::signed17, crate::specs::Immediates::signed44, crate::specs::Immediates::offset25, crate::specs::Immediates::parted25, crate::specs::Immediates::offset13, crate::specs::Immediates::number21, crate::specs::Immediates::number62, crate::specs::Immediates::number64))]

ghost use Rattle.std.specs.Prelude.{◌≡◌, ◌≤◌, [], ◌∷◌};
ghost use Rattle.encoding.specs.Fields.{Stand, bits, extended, number, span};
ghost use Rattle.encoding.specs.Fields.Field.{holds, ignored};
ghost use Rattle.encoding.specs.Immediates.{number21, number62, number64, offset13, offset25, parted25, signed14, signed17, signed22, signed44, signed8, signed9};
ghost use Rattle.encoding.specs.Parts.{fields, value_of, width_of};

use crate::fields::field;
use integer::{Length, shl, sign_extend};

// A part of an immediate.
#[derive(Clone, Copy)]
enum Part {
    // The field of the slot that has this first bit and this width.
    Bits(u32, u32),
    // The low bits of another slot, so many of them.
    Low(u64, u32),
    // So many zeros.
    Zeros(u32),
}

use Part::{Bits, Low, Zeros};

impl Part {
    fn value(self, slot: u64) -> u64
        ensures { result ≡ value_of slot self }
    {
        match self {
            Bits(first, width) => field(slot, first, width),
            Low(other, width) => field(other, 0, width),
            Zeros(_) => 0,
        }
    }

    fn width(self) -> u32
        ensures { result ≡ width_of self }
    {
        match self {
            Bits(_, width) => width,
            Low(_, width) => width,
            Zeros(width) => width,
        }
    }
}

// The parts one above the other from bit 0 on: the number that they make, and how many bits they take. Slot and parts are two arguments:
// a struct of both would be made in each public function for one call.
fn joined(slot: u64, parts: &[Part]) -> (u64, u32)
    requires { span (fields slot parts.now) ≤ 64 }
    ensures number { result.0 ≡ number (fields slot parts.now) }
    ensures width { result.1 ≡ span (fields slot parts.now) }
{
    let mut value = 0;
    let mut width = 0;
    for part in parts {
        value += shl(part.value(slot), u64::from(width));
        width += part.width();
    }
    (value, width)
}

// The number that the parts make.
fn zero_extended(slot: u64, parts: &[Part]) -> u64
    requires { span (fields slot parts.now) ≤ 64 }
    ensures value { result ≡ number (fields slot parts.now) }
    ensures parts { Stand result 0 (fields slot parts.now) }
{
    joined(slot, parts).0
}

// The same with its highest bit in all bits above.
fn sign_extended(slot: u64, parts: &[Part]) -> u64
    requires some { 1 ≤ span (fields slot parts.now) }
    requires few { span (fields slot parts.now) ≤ 64 }
    ensures value { result ≡ extended (fields slot parts.now) }
    ensures parts { Stand result 0 (fields slot parts.now) }
{
    let (value, width) = joined(slot, parts);
    sign_extend(value, Length::from_low_bits((width - 1) as u8))
}

// Each immediate of a format has a function and a contract of its own, by the name that the formats give it.

pub fn imm8(slot: u64) -> u64
    ensures value { result ≡ signed8 (bits 13 7 slot) (bits 36 1 slot) }
    ensures parts { Stand result 0 (holds 7 (bits 13 7 slot) ∷ holds 1 (bits 36 1 slot) ∷ []) }
{
    sign_extended(slot, &[Bits(13, 7), Bits(36, 1)])
}

// The increment of a base register; its low part stands from bit `first` on.
pub fn imm9(slot: u64, first: u32) -> u64
    ensures value { result ≡ signed9 (bits first 7 slot) (bits 27 1 slot) (bits 36 1 slot) }
    ensures parts { Stand result 0 (holds 7 (bits first 7 slot) ∷ holds 1 (bits 27 1 slot) ∷ holds 1 (bits 36 1 slot) ∷ []) }
{
    sign_extended(slot, &[Bits(first, 7), Bits(27, 1), Bits(36, 1)])
}

pub fn imm14(slot: u64) -> u64
    ensures value { result ≡ signed14 (bits 13 7 slot) (bits 27 6 slot) (bits 36 1 slot) }
    ensures parts { Stand result 0 (holds 7 (bits 13 7 slot) ∷ holds 6 (bits 27 6 slot) ∷ holds 1 (bits 36 1 slot) ∷ []) }
{
    sign_extended(slot, &[Bits(13, 7), Bits(27, 6), Bits(36, 1)])
}

pub fn imm22(slot: u64) -> u64
    ensures value { result ≡ signed22 (bits 13 7 slot) (bits 27 9 slot) (bits 22 5 slot) (bits 36 1 slot) }
    ensures parts { Stand result 0 (holds 7 (bits 13 7 slot) ∷ holds 9 (bits 27 9 slot) ∷ holds 5 (bits 22 5 slot) ∷ holds 1 (bits 36 1 slot) ∷ []) }
{
    sign_extended(slot, &[Bits(13, 7), Bits(27, 9), Bits(22, 5), Bits(36, 1)])
}

// The mask of a move to the predicates.
pub fn mask17(slot: u64) -> u64
    ensures value { result ≡ signed17 (bits 6 7 slot) (bits 24 8 slot) (bits 36 1 slot) }
    ensures parts { Stand result 0 (ignored 1 ∷ holds 7 (bits 6 7 slot) ∷ holds 8 (bits 24 8 slot) ∷ holds 1 (bits 36 1 slot) ∷ []) }
{
    sign_extended(slot, &[Zeros(1), Bits(6, 7), Bits(24, 8), Bits(36, 1)])
}

// The immediate of a move to the rotating predicates.
pub fn imm44(slot: u64) -> u64
    ensures value { result ≡ signed44 (bits 6 27 slot) (bits 36 1 slot) }
    ensures parts { Stand result 0 (ignored 16 ∷ holds 27 (bits 6 27 slot) ∷ holds 1 (bits 36 1 slot) ∷ []) }
{
    sign_extended(slot, &[Zeros(16), Bits(6, 27), Bits(36, 1)])
}

// The offset of a branch or of chk.a.
pub fn offset(slot: u64) -> u64
    ensures value { result ≡ offset25 (bits 13 20 slot) (bits 36 1 slot) }
    ensures parts { Stand result 0 (ignored 4 ∷ holds 20 (bits 13 20 slot) ∷ holds 1 (bits 36 1 slot) ∷ []) }
{
    sign_extended(slot, &[Zeros(4), Bits(13, 20), Bits(36, 1)])
}

// The offset of chk.s, which stands in two parts.
pub fn parted_offset(slot: u64) -> u64
    ensures value { result ≡ parted25 (bits 6 7 slot) (bits 20 13 slot) (bits 36 1 slot) }
    ensures parts { Stand result 0 (ignored 4 ∷ holds 7 (bits 6 7 slot) ∷ holds 13 (bits 20 13 slot) ∷ holds 1 (bits 36 1 slot) ∷ []) }
{
    sign_extended(slot, &[Zeros(4), Bits(6, 7), Bits(20, 13), Bits(36, 1)])
}

// The offset of a prediction to the branch that it is about.
pub fn tag(slot: u64) -> u64
    ensures value { result ≡ offset13 (bits 6 7 slot) (bits 33 2 slot) }
    ensures parts { Stand result 0 (ignored 4 ∷ holds 7 (bits 6 7 slot) ∷ holds 2 (bits 33 2 slot) ∷ []) }
{
    sign_extended(slot, &[Zeros(4), Bits(6, 7), Bits(33, 2)])
}

// The immediate of nop and break.
pub fn imm21(slot: u64) -> u64
    ensures value { result ≡ number21 (bits 6 20 slot) (bits 36 1 slot) }
    ensures parts { Stand result 0 (holds 20 (bits 6 20 slot) ∷ holds 1 (bits 36 1 slot) ∷ []) }
{
    zero_extended(slot, &[Bits(6, 20), Bits(36, 1)])
}

// The immediate of nop and break in the L slot and the X slot together.
pub fn imm62(long: u64, slot: u64) -> u64
    ensures value { result ≡ number62 (bits 6 20 slot) (bits 36 1 slot) (bits 0 41 long) }
    ensures parts { Stand result 0 (holds 20 (bits 6 20 slot) ∷ holds 1 (bits 36 1 slot) ∷ holds 41 (bits 0 41 long) ∷ []) }
{
    zero_extended(slot, &[Bits(6, 20), Bits(36, 1), Low(long, 41)])
}

// The immediate of movl.
pub fn imm64(long: u64, slot: u64) -> u64
    ensures value { result ≡ number64 (bits 13 7 slot) (bits 27 9 slot) (bits 22 5 slot) (bits 21 1 slot) (bits 0 41 long) (bits 36 1 slot) }
    ensures parts { Stand result 0 (holds 7 (bits 13 7 slot) ∷ holds 9 (bits 27 9 slot) ∷ holds 5 (bits 22 5 slot) ∷ holds 1 (bits 21 1 slot) ∷ holds 41 (bits 0 41 long) ∷ holds 1 (bits 36 1 slot) ∷ []) }
{
    zero_extended(
        slot,
        &[
            Bits(13, 7),
            Bits(27, 9),
            Bits(22, 5),
            Bits(21, 1),
            Low(long, 41),
            Bits(36, 1),
        ],
    )
}
