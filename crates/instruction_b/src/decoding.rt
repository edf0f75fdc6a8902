// From a slot to the record.
//
// The functions that come first say what the codes of a format stand for. A code belongs to its format and not to the type that it names,
// so they are no conversions of the types. Where each value of the field has a meaning, they read it themselves and return no option.
// Operands are read where they are used, by first bit and width, as the formats in specs/ have them.
ghost use Rattle.std.specs.Prelude.{◌≡◌};
ghost use Rattle.encoding.specs.Fields.{bits, flag};
ghost use Rattle.encoding.specs.Reading.{Found, Reads};
ghost use Rattle.instruction_b.specs.Formats.{Holds, Whole, counted_type, hints_of, predicted_code, predicted_of, prediction_of, prefetch_code, prefetch_of, relative_type, whether_code, whether_of};

use crate::record::{
    Branch, Counted, Hints, Indirect, Predicted, Prediction, Prefetch, Relative, Whether,
};
use encoding::{imm21, offset, small, tag};

#[tactic(auto, unfolding(crate::specs::Formats::whether_of))]
fn whether(slot: u64) -> Whether
    ensures value { result ≡ whether_of (bits 33 2 slot) }
    ensures field { bits 33 2 slot ≡ whether_code result }
{
    match small(slot, 33, 2) {
        0 => Whether::Sptk,
        1 => Whether::Spnt,
        2 => Whether::Dptk,
        _ => Whether::Dpnt,
    }
}

#[tactic(auto, unfolding(crate::specs::Formats::prefetch_of))]
fn prefetch(slot: u64) -> Prefetch
    ensures value { result ≡ prefetch_of (bits 12 1 slot) }
    ensures field { bits 12 1 slot ≡ prefetch_code result }
{
    match small(slot, 12, 1) {
        0 => Prefetch::Few,
        _ => Prefetch::Many,
    }
}

#[tactic(auto, unfolding(crate::specs::Formats::hints_of, crate::specs::Formats::flag_of))]
fn hints(slot: u64) -> Hints
    ensures value { result ≡ hints_of (bits 33 2 slot) (bits 12 1 slot) (bits 35 1 slot) }
    ensures fields { (bits 33 2 slot ≡ whether_code result.whether) × (bits 12 1 slot ≡ prefetch_code result.prefetch) × (bits 35 1 slot ≡ flag result.clr) }
{
    Hints {
        whether: whether(slot),
        prefetch: prefetch(slot),
        clr: small(slot, 35, 1) == 1,
    }
}

#[tactic(auto, unfolding(crate::specs::Formats::predicted_of))]
fn predicted(slot: u64) -> Predicted
    ensures value { result ≡ predicted_of (bits 3 2 slot) }
    ensures field { bits 3 2 slot ≡ predicted_code result }
{
    match small(slot, 3, 2) {
        0 => Predicted::Sptk,
        1 => Predicted::Loop,
        2 => Predicted::Dptk,
        _ => Predicted::Exit,
    }
}

#[tactic(auto, unfolding(crate::specs::Formats::prediction_of, crate::specs::Formats::flag_of))]
fn prediction(slot: u64) -> Prediction
    ensures value { result ≡ prediction_of (bits 3 2 slot) (bits 35 1 slot) (bits 6 7 slot) (bits 33 2 slot) }
    ensures fields { (bits 3 2 slot ≡ predicted_code result.predicted) × (bits 35 1 slot ≡ flag result.imp) × (bits 6 7 slot ≡ bits 4 7 result.tag) × (bits 33 2 slot ≡ bits 11 2 result.tag) }
{
    Prediction {
        predicted: predicted(slot),
        imp: small(slot, 35, 1) == 1,
        tag: tag(slot),
    }
}

fn relative(btype: u8) -> Option<Relative>
    ensures { Found (λ r. relative_type r ≡ btype) result }
{
    match btype {
        0 => Some(Relative::Cond),
        2 => Some(Relative::Wexit),
        3 => Some(Relative::Wtop),
        _ => None,
    }
}

fn counted(btype: u8) -> Option<Counted>
    ensures { Found (λ c. counted_type c ≡ btype) result }
{
    match btype {
        5 => Some(Counted::Cloop),
        6 => Some(Counted::Cexit),
        7 => Some(Counted::Ctop),
        _ => None,
    }
}

// Major opcode 4: branches with an offset, by btype.
fn offset_branches(slot: u64) -> Option<Branch>
    requires { bits 37 4 slot ≡ 4 }
    ensures { Reads (Holds slot) result }
{
    let hints = hints(slot);
    let offset = offset(slot);
    let low = small(slot, 0, 6);
    match small(slot, 6, 3) {
        btype @ 0..=3 => Some(Branch::Relative {
            branch: relative(btype)?,
            hints,
            offset,
        }),
        btype if low == 0 => Some(Branch::Counted {
            branch: counted(btype)?,
            hints,
            offset,
        }),
        _ => None,
    }
}

// Major opcode 0: branches to a branch register, and what is left, by x6. Of the branches btype too has one value each.
fn indirect(slot: u64) -> Option<Branch>
    requires { bits 37 4 slot ≡ 0 }
    ensures { Reads (Holds slot) result }
{
    let hints = hints(slot);
    let b2 = small(slot, 13, 3);
    let btype = small(slot, 6, 3);
    let low = small(slot, 0, 6);
    match small(slot, 27, 6) {
        0x00 => Some(Branch::Break { imm: imm21(slot) }),
        0x04 if low == 0 => Some(Branch::Clrrrb),
        0x05 if low == 0 => Some(Branch::ClrrrbPr),
        0x20 if btype == 0 => Some(Branch::Indirect {
            branch: Indirect::Cond,
            hints,
            b2,
        }),
        0x21 if btype == 4 => Some(Branch::Indirect {
            branch: Indirect::Ret,
            hints,
            b2,
        }),
        _ => None,
    }
}

// Major opcode 2: predictions of a branch to a branch register, and nop, by x6; each row of the format is an arm.
fn predictions(slot: u64) -> Option<Branch>
    requires { bits 37 4 slot ≡ 2 }
    ensures { Reads (Holds slot) result }
{
    let prediction = prediction(slot);
    let b2 = small(slot, 13, 3);
    match small(slot, 27, 6) {
        0x00 => Some(Branch::Nop { imm: imm21(slot) }),
        0x10 => Some(Branch::PredictIndirect {
            branch: Indirect::Cond,
            prediction,
            b2,
        }),
        0x11 => Some(Branch::PredictIndirect {
            branch: Indirect::Ret,
            prediction,
            b2,
        }),
        _ => None,
    }
}

// The instruction of the B unit that the slot holds.
pub fn decode(slot: u64) -> Option<Branch>
    ensures { Reads (Holds slot) result }
{
    let b1 = small(slot, 6, 3);
    let b2 = small(slot, 13, 3);
    match small(slot, 37, 4) {
        0 => indirect(slot),
        1 => Some(Branch::CallIndirect {
            hints: hints(slot),
            known: small(slot, 32, 1) == 1,
            b1,
            b2,
        }),
        2 => predictions(slot),
        4 => offset_branches(slot),
        5 => Some(Branch::Call {
            hints: hints(slot),
            b1,
            offset: offset(slot),
        }),
        7 => Some(Branch::Predict {
            prediction: prediction(slot),
            offset: offset(slot),
        }),
        _ => None,
    }
}

// Each layout of this crate is of 41 bits.
pub fn layouts_are_whole()
    ensures { Whole }
{}
