// The templates: which unit executes each slot of a bundle, and after which slots an instruction group stops.
ghost use Rattle.std.specs.Prelude.{◌≡◌, ◌++◌, Some, codes};
ghost use Rattle.std.specs.Option.{ok_or};
ghost use Rattle.std.specs.Fmt.{decimal};
ghost use Rattle.bundle.specs.Templates.{letter_of, template_of};

use std::error::Error;
use std::fmt;

// An execution unit. A long slot (L) and the extended slot (X) after it hold one instruction.
#[derive(Clone, Copy, PartialEq, Eq, Debug)]
pub enum Unit {
    Memory,
    Integer,
    Floating,
    Branch,
    Long,
    Extended,
}

use Unit::{Branch as B, Extended as X, Floating as F, Integer as I, Long as L, Memory as M};

// The units of slots 0 to 2, and whether a stop follows each: two arrays, so that a row of the table below reads as the architecture writes it.
#[derive(Clone, Copy, PartialEq, Eq, Debug)]
pub struct Template {
    pub units: [Unit; 3],
    pub stops: [bool; 3],
}

// A number that no template has.
#[derive(Clone, Copy, PartialEq, Eq, Debug)]
pub struct UnknownTemplate {
    pub number: u8,
}

// A row of the table below, on one line: the units of the slots and their stops.
macro_rules! row {
    ($units:expr, $stops:expr) => {
        Some(Template {
            units: $units,
            stops: $stops,
        })
    };
}

// The template of each number; a reserved one has none.
const TEMPLATES: [Option<Template>; 32] = [
    row!([M, I, I], [false, false, false]),
    row!([M, I, I], [false, false, true]),
    row!([M, I, I], [false, true, false]),
    row!([M, I, I], [false, true, true]),
    row!([M, L, X], [false, false, false]),
    row!([M, L, X], [false, false, true]),
    None,
    None,
    row!([M, M, I], [false, false, false]),
    row!([M, M, I], [false, false, true]),
    row!([M, M, I], [true, false, false]),
    row!([M, M, I], [true, false, true]),
    row!([M, F, I], [false, false, false]),
    row!([M, F, I], [false, false, true]),
    row!([M, M, F], [false, false, false]),
    row!([M, M, F], [false, false, true]),
    row!([M, I, B], [false, false, false]),
    row!([M, I, B], [false, false, true]),
    row!([M, B, B], [false, false, false]),
    row!([M, B, B], [false, false, true]),
    None,
    None,
    row!([B, B, B], [false, false, false]),
    row!([B, B, B], [false, false, true]),
    row!([M, M, B], [false, false, false]),
    row!([M, M, B], [false, false, true]),
    None,
    None,
    row!([M, F, B], [false, false, false]),
    row!([M, F, B], [false, false, true]),
    None,
    None,
];

impl TryFrom<u8> for Template {
    type Error = UnknownTemplate;

    ghost try_from_gives = { λ number template. template ≡ ok_or (template_of number) (record { number = number }) };

    fn try_from(number: u8) -> Result<Template, UnknownTemplate> {
        TEMPLATES
            .get(usize::from(number))
            .copied()
            .flatten()
            .ok_or(UnknownTemplate { number })
    }
}

impl fmt::Display for UnknownTemplate {
    ghost output = { λ e. Some (codes "no template has the number " ++ decimal e.number) };

    fn fmt<W: fmt::Write>(&self, f: &mut fmt::Formatter<W>) -> fmt::Result {
        write!(f, "no template has the number {}", self.number)
    }
}

impl Error for UnknownTemplate {}

impl Unit {
    // The letter that stands for the unit in listings, as the ASCII byte that a listing has.
    pub fn letter(self) -> u8
        ensures { result ≡ letter_of self }
    {
        match self {
            M => b'M',
            I => b'I',
            F => b'F',
            B => b'B',
            L => b'L',
            X => b'X',
        }
    }
}
