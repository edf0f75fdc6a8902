// The text of the B unit's instructions.
use crate::completer::completer_if;
use instruction_b::{
    Branch, Counted, Hints, Indirect, Predicted, Prediction, Prefetch, Relative, Whether,
};
use std::fmt;

// Where a branch goes.
#[derive(Clone, Copy)]
enum Target {
    Address(u64),
    Register(u8),
}

impl Target {
    // The target that lies so many bytes after the address.
    fn relative(address: u64, offset: u64) -> Target {
        Target::Address(address.wrapping_add(offset))
    }
}

impl fmt::Display for Target {
    fn fmt<W: fmt::Write>(&self, f: &mut fmt::Formatter<W>) -> fmt::Result {
        match *self {
            Target::Address(address) => write!(f, "{address:#x}"),
            Target::Register(number) => write!(f, "b{number}"),
        }
    }
}

// Functions and no `Display`: the enums are another crate's, where they have no text.
fn whether_text(whether: Whether) -> &'static str {
    match whether {
        Whether::Sptk => ".sptk",
        Whether::Spnt => ".spnt",
        Whether::Dptk => ".dptk",
        Whether::Dpnt => ".dpnt",
    }
}

fn prefetch_text(prefetch: Prefetch) -> &'static str {
    match prefetch {
        Prefetch::Few => ".few",
        Prefetch::Many => ".many",
    }
}

// The hints as completers.
#[derive(Clone, Copy)]
struct HintCompleters(Hints);

impl fmt::Display for HintCompleters {
    fn fmt<W: fmt::Write>(&self, f: &mut fmt::Formatter<W>) -> fmt::Result {
        let HintCompleters(hints) = *self;
        f.write_str(whether_text(hints.whether))?;
        f.write_str(prefetch_text(hints.prefetch))?;
        f.write_str(completer_if(hints.clr, ".clr"))
    }
}

// A conditional branch is written short where it is always taken, and so predicted.
fn write_cond<W: fmt::Write>(
    f: &mut fmt::Formatter<W>,
    qp: u8,
    hints: Hints,
    target: Target,
) -> fmt::Result {
    match hints.whether {
        Whether::Sptk if qp == 0 => {
            let prefetch = prefetch_text(hints.prefetch);
            let clr = completer_if(hints.clr, ".clr");
            write!(f, "br{prefetch}{clr} {target}")
        }
        _ => write!(f, "br.cond{} {target}", HintCompleters(hints)),
    }
}

// Functions and no `Display`, as above.
fn counted_text(branch: Counted) -> &'static str {
    match branch {
        Counted::Cloop => "cloop",
        Counted::Cexit => "cexit",
        Counted::Ctop => "ctop",
    }
}

fn predicted_text(predicted: Predicted) -> &'static str {
    match predicted {
        Predicted::Sptk => ".sptk",
        Predicted::Loop => ".loop",
        Predicted::Dptk => ".dptk",
        Predicted::Exit => ".exit",
    }
}

fn write_predict<W: fmt::Write>(
    f: &mut fmt::Formatter<W>,
    mnemonic: &'static str,
    address: u64,
    prediction: Prediction,
    target: Target,
) -> fmt::Result {
    let predicted = predicted_text(prediction.predicted);
    let imp = completer_if(prediction.imp, ".imp");
    let tag = address.wrapping_add(prediction.tag);
    write!(f, "{mnemonic}{predicted}{imp} {target},{tag:#x}")
}

// One arm for each record.
pub(crate) fn write_branch<W: fmt::Write>(
    f: &mut fmt::Formatter<W>,
    address: u64,
    qp: u8,
    branch: Branch,
) -> fmt::Result {
    match branch {
        Branch::Relative {
            branch,
            hints,
            offset,
        } => {
            let target = Target::relative(address, offset);
            match branch {
                Relative::Cond => write_cond(f, qp, hints, target),
                Relative::Wexit => write!(f, "br.wexit{} {target}", HintCompleters(hints)),
                Relative::Wtop => write!(f, "br.wtop{} {target}", HintCompleters(hints)),
            }
        }
        Branch::Counted {
            branch,
            hints,
            offset,
        } => {
            let target = Target::relative(address, offset);
            let hints = HintCompleters(hints);
            write!(f, "br.{}{hints} {target}", counted_text(branch))
        }
        Branch::Call { hints, b1, offset } => {
            let target = Target::relative(address, offset);
            write!(f, "br.call{} b{b1}={target}", HintCompleters(hints))
        }
        Branch::Indirect { branch, hints, b2 } => match branch {
            Indirect::Cond => write_cond(f, qp, hints, Target::Register(b2)),
            Indirect::Ret => write!(f, "br.ret{} b{b2}", HintCompleters(hints)),
        },
        Branch::CallIndirect { hints, b1, b2, .. } => {
            write!(f, "br.call{} b{b1}=b{b2}", HintCompleters(hints))
        }
        Branch::Predict { prediction, offset } => {
            let target = Target::relative(address, offset);
            write_predict(f, "brp", address, prediction, target)
        }
        Branch::PredictIndirect {
            branch,
            prediction,
            b2,
        } => {
            let mnemonic = match branch {
                Indirect::Cond => "brp",
                Indirect::Ret => "brp.ret",
            };
            write_predict(f, mnemonic, address, prediction, Target::Register(b2))
        }
        Branch::Clrrrb => f.write_str("clrrrb"),
        Branch::ClrrrbPr => f.write_str("clrrrb.pr"),
        Branch::Nop { imm } => write!(f, "nop.b {imm:#x}"),
        Branch::Break { imm } => write!(f, "break.b {imm:#x}"),
    }
}
