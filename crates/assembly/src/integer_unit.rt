// The text of the I unit's own instructions.
use crate::compare::Completers;
use crate::completer::completer_if;
use instruction_i::{Application, Integer};
use integer::{BitField, Part};
use std::fmt;

// Functions and no `Display`: the enums are another crate's, where they have no text.
// The I unit and the M unit move different application registers, so each has an enum of its own.
fn application_text(register: Application) -> &'static str {
    match register {
        Application::Pfs => "ar.pfs",
        Application::Lc => "ar.lc",
        Application::Ec => "ar.ec",
    }
}

// How many bytes are extended, as the mnemonic says.
fn part_bytes(part: Part) -> u32 {
    part.length().bits() / 8
}

// A field as two operands.
#[derive(Clone, Copy)]
struct FieldOperands(BitField);

impl fmt::Display for FieldOperands {
    fn fmt<W: fmt::Write>(&self, f: &mut fmt::Formatter<W>) -> fmt::Result {
        let FieldOperands(BitField { position, length }) = *self;
        write!(f, "{},{}", position.bit(), length.bits())
    }
}

// What moves a field to or from the low bits is written as a shift where the shift does the same.
fn write_move<W: fmt::Write>(
    f: &mut fmt::Formatter<W>,
    mnemonics: (&'static str, &'static str),
    r1: u8,
    source: u8,
    field: BitField,
) -> fmt::Result {
    let (mnemonic, shift) = mnemonics;
    let position = field.position.bit();
    if position + field.length.bits() == 64 {
        write!(f, "{shift} r{r1}=r{source},{position}")
    } else {
        write!(f, "{mnemonic} r{r1}=r{source},{}", FieldOperands(field))
    }
}

// One arm for each record.
pub(crate) fn write_integer<W: fmt::Write>(
    f: &mut fmt::Formatter<W>,
    address: u64,
    integer: Integer,
) -> fmt::Result {
    match integer {
        Integer::Shl { r1, r2, r3 } => write!(f, "shl r{r1}=r{r2},r{r3}"),
        Integer::Shr { r1, r3, r2 } => write!(f, "shr r{r1}=r{r3},r{r2}"),
        Integer::ShrU { r1, r3, r2 } => write!(f, "shr.u r{r1}=r{r3},r{r2}"),
        Integer::Shrp { r1, r2, r3, count } => {
            write!(f, "shrp r{r1}=r{r2},r{r3},{}", count.bit())
        }
        Integer::Extr { r1, r3, field } => write_move(f, ("extr", "shr"), r1, r3, field),
        Integer::ExtrU { r1, r3, field } => write_move(f, ("extr.u", "shr.u"), r1, r3, field),
        Integer::Dep { r1, r2, r3, field } => {
            write!(f, "dep r{r1}=r{r2},r{r3},{}", FieldOperands(field))
        }
        Integer::DepBits {
            r1,
            ones,
            r3,
            field,
        } => {
            let source = if ones { "-1" } else { "0" };
            write!(f, "dep r{r1}={source},r{r3},{}", FieldOperands(field))
        }
        Integer::DepZ { r1, r2, field } => write_move(f, ("dep.z", "shl"), r1, r2, field),
        Integer::DepZImmediate { r1, imm, field } => {
            let imm = imm.cast_signed();
            write!(f, "dep.z r{r1}={imm},{}", FieldOperands(field))
        }
        Integer::Tbit {
            test,
            p1,
            p2,
            r3,
            position,
        } => {
            let completers = Completers::from(test);
            write!(f, "tbit{completers} p{p1},p{p2}=r{r3},{}", position.bit())
        }
        Integer::Tnat { test, p1, p2, r3 } => {
            let completers = Completers::from(test);
            write!(f, "tnat{completers} p{p1},p{p2}=r{r3}")
        }
        Integer::Popcnt { r1, r3 } => write!(f, "popcnt r{r1}=r{r3}"),
        Integer::Sxt { part, r1, r3 } => write!(f, "sxt{} r{r1}=r{r3}", part_bytes(part)),
        Integer::Zxt { part, r1, r3 } => write!(f, "zxt{} r{r1}=r{r3}", part_bytes(part)),
        Integer::ChkS { r2, offset } => {
            write!(f, "chk.s.i r{r2},{:#x}", address.wrapping_add(offset))
        }
        Integer::ToBranch { ret, b1, r2 } => {
            let ret = completer_if(ret, ".ret");
            write!(f, "mov{ret} b{b1}=r{r2}")
        }
        Integer::FromBranch { r1, b2 } => write!(f, "mov r{r1}=b{b2}"),
        Integer::ToPredicates { r2, mask } => write!(f, "mov pr=r{r2},{mask:#x}"),
        Integer::ToRotating { imm } => write!(f, "mov pr.rot={imm:#x}"),
        Integer::FromPredicates { r1 } => write!(f, "mov r{r1}=pr"),
        Integer::FromIp { r1 } => write!(f, "mov r{r1}=ip"),
        Integer::ToApplication { register, r2 } => {
            write!(f, "mov.i {}=r{r2}", application_text(register))
        }
        Integer::ToApplicationImmediate { register, imm } => {
            let register = application_text(register);
            write!(f, "mov.i {register}={}", imm.cast_signed())
        }
        Integer::FromApplication { r1, register } => {
            write!(f, "mov.i r{r1}={}", application_text(register))
        }
        Integer::Nop { imm } => write!(f, "nop.i {imm:#x}"),
        Integer::Break { imm } => write!(f, "break.i {imm:#x}"),
    }
}
