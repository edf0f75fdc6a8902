// The slots of a bundle with what they hold.
use assembly::Line;
use bundle::{Bundle, Template, Unit};
use instruction::{Instruction, decode, decode_long};
use std::fmt;

// The bits of a slot, the line of the instruction that they are, if any, and whether a stop follows it.
#[derive(Clone, Copy)]
pub(crate) struct Slot {
    bits: u64,
    line: Option<Line>,
    stop: bool,
}

impl Slot {
    fn new(address: u64, bits: u64, instruction: Option<Instruction>, stop: bool) -> Slot {
        let line = instruction.map(|instruction| Line {
            address,
            instruction,
        });
        Slot { bits, line, stop }
    }
}

impl fmt::Display for Slot {
    fn fmt<W: fmt::Write>(&self, f: &mut fmt::Formatter<W>) -> fmt::Result {
        match self.line {
            Some(line) if self.stop => write!(f, "{line};;"),
            Some(line) => write!(f, "{line}"),
            None => write!(f, "? {:011X}", self.bits),
        }
    }
}

// The slots of the bundle at this address. The instruction of an L slot and an X slot stands at the first of them, and the stop after them
// with it.
pub(crate) fn slots(address: u64, bundle: Bundle) -> [Slot; 3] {
    let (number, bits0, bits1, bits2) = bundle.split();
    let Ok(template) = Template::try_from(number) else {
        return [bits0, bits1, bits2].map(|bits| Slot::new(address, bits, None, false));
    };
    // Slot by slot and in no loop, since an L slot takes the bits and the stop of the slot after it.
    let [unit0, unit1, unit2] = template.units;
    let [stop0, stop1, stop2] = template.stops;
    let (instruction1, stop1) = match unit1 {
        Unit::Long => (decode_long(bits1, bits2), stop2),
        _ => (decode(unit1, bits1), stop1),
    };
    [
        Slot::new(address, bits0, decode(unit0, bits0), stop0),
        Slot::new(address, bits1, instruction1, stop1),
        Slot::new(address, bits2, decode(unit2, bits2), stop2),
    ]
}
