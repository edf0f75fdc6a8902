// The text of the M unit's own instructions.
use crate::completer::completer_if;
use instruction_m::{Application, BaseUpdate, Clear, Hint, LoadType, Memory};
use std::fmt;

// Functions and no `Display`: the enums are another crate's, where they have no text.
// The I unit and the M unit move different application registers, so each has an enum of its own.
fn application_text(register: Application) -> &'static str {
    match register {
        Application::Ccv => "ar.ccv",
        Application::Unat => "ar.unat",
    }
}

fn type_text(load_type: LoadType) -> &'static str {
    match load_type {
        LoadType::Normal => "",
        LoadType::S => ".s",
        LoadType::A => ".a",
        LoadType::Sa => ".sa",
        LoadType::Bias => ".bias",
        LoadType::Acq => ".acq",
        LoadType::CClr => ".c.clr",
        LoadType::CNc => ".c.nc",
        LoadType::CClrAcq => ".c.clr.acq",
    }
}

// The hint's completer. The text of `Nt1` is not the same at a load and at a store.
fn hint_text(hint: Hint, nt1: &'static str) -> &'static str {
    match hint {
        Hint::None => "",
        Hint::Nt1 => nt1,
        Hint::Two => ".d2",
        Hint::Nta => ".nta",
    }
}

fn clear_text(clear: Clear) -> &'static str {
    match clear {
        Clear::Clr => ".clr",
        Clear::Nc => ".nc",
    }
}

fn write_update<W: fmt::Write>(
    f: &mut fmt::Formatter<W>,
    update: Option<BaseUpdate>,
) -> fmt::Result {
    match update {
        None => Ok(()),
        Some(BaseUpdate::Register(r2)) => write!(f, ",r{r2}"),
        Some(BaseUpdate::Immediate(imm)) => write!(f, ",{}", imm.cast_signed()),
    }
}

// One arm for each record.
pub(crate) fn write_memory<W: fmt::Write>(
    f: &mut fmt::Formatter<W>,
    address: u64,
    memory: Memory,
) -> fmt::Result {
    match memory {
        Memory::Load {
            load_type,
            size,
            hint,
            r1,
            r3,
            update,
        } => {
            let load_type = type_text(load_type);
            let hint = hint_text(hint, ".nt1");
            write!(f, "ld{}{load_type}{hint} r{r1}=[r{r3}]", size.bytes())?;
            write_update(f, update)
        }
        Memory::Fill {
            hint,
            r1,
            r3,
            update,
        } => {
            write!(f, "ld8.fill{} r{r1}=[r{r3}]", hint_text(hint, ".nt1"))?;
            write_update(f, update)
        }
        Memory::Store {
            release,
            size,
            hint,
            r3,
            r2,
            increment,
        } => {
            let release = completer_if(release, ".rel");
            let hint = hint_text(hint, ".d1");
            write!(f, "st{}{release}{hint} [r{r3}]=r{r2}", size.bytes())?;
            write_update(f, increment.map(BaseUpdate::Immediate))
        }
        Memory::Spill {
            hint,
            r3,
            r2,
            increment,
        } => {
            write!(f, "st8.spill{} [r{r3}]=r{r2}", hint_text(hint, ".d1"))?;
            write_update(f, increment.map(BaseUpdate::Immediate))
        }
        Memory::ChkS { r2, offset } => {
            write!(f, "chk.s.m r{r2},{:#x}", address.wrapping_add(offset))
        }
        Memory::ChkA { clear, r1, offset } => {
            let clear = clear_text(clear);
            write!(f, "chk.a{clear} r{r1},{:#x}", address.wrapping_add(offset))
        }
        Memory::Invala => f.write_str("invala"),
        Memory::InvalaE { r1 } => write!(f, "invala.e r{r1}"),
        Memory::Mf => f.write_str("mf"),
        Memory::Alloc { r1, sof, sol, sor } => {
            write!(f, "alloc r{r1}=ar.pfs,{sof},{sol},{}", 8 * sor as u32)
        }
        Memory::ToApplication { register, r2 } => {
            write!(f, "mov.m {}=r{r2}", application_text(register))
        }
        Memory::ToApplicationImmediate { register, imm } => {
            let register = application_text(register);
            write!(f, "mov.m {register}={}", imm.cast_signed())
        }
        Memory::FromApplication { r1, register } => {
            write!(f, "mov.m r{r1}={}", application_text(register))
        }
        Memory::Nop { imm } => write!(f, "nop.m {imm:#x}"),
        Memory::Break { imm } => write!(f, "break.m {imm:#x}"),
    }
}
