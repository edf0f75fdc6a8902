// The text of the instructions of the F unit, and of the L and X slots.
use instruction::{Extended, Floating};
use std::fmt;

pub(crate) fn write_floating<W: fmt::Write>(
    f: &mut fmt::Formatter<W>,
    floating: Floating,
) -> fmt::Result {
    match floating {
        Floating::Nop { imm } => write!(f, "nop.f {imm:#x}"),
        Floating::Break { imm } => write!(f, "break.f {imm:#x}"),
    }
}

pub(crate) fn write_extended<W: fmt::Write>(
    f: &mut fmt::Formatter<W>,
    extended: Extended,
) -> fmt::Result {
    match extended {
        Extended::Movl { r1, imm } => write!(f, "movl r{r1}={imm:#x}"),
        Extended::Nop { imm } => write!(f, "nop.x {imm:#x}"),
        Extended::Break { imm } => write!(f, "break.x {imm:#x}"),
    }
}
