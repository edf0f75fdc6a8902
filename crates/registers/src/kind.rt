// The kinds of banks.
ghost use Rattle.std.specs.Prelude.{◌≡◌, ℕ, ◌<◌, true, false};
ghost use Rattle.std.proofs.Common.{lit<};

// A kind of bank: its cell, and the count of fixed registers, which are never renamed.
pub trait Kind {
    type Cell: Copy;

    const FIXED: u16;

    ghost FIXED: { ℕ };

    ghost few: { FIXED < 1000 };
}

// A kind of bank whose cells have a blank, which a register reads as where there is no cell. Functions, since a constant cannot be made by a
// call, and a kind's cell may be a type that only its own functions make.
pub trait BlankKind: Kind {
    ghost blank: { Self.Cell };

    // What register 0 reads as.
    ghost first: { Self.Cell };

    fn blank_cell() -> Self::Cell
        ensures { result ≡ blank };

    fn register_zero() -> Self::Cell
        ensures { result ≡ first };
}

// A general cell: a value, and the NaT bit that says that it is not a thing.
#[derive(Clone, Copy, PartialEq, Eq, Debug, Default)]
pub struct General {
    pub value: u64,
    pub nat: bool,
}

// The bank of general registers.
pub struct Generals;

impl Kind for Generals {
    type Cell = General;

    const FIXED: u16 = 32;

    ghost FIXED = { 32 };

    ghost few = { lit< tt };
}

impl BlankKind for Generals {
    ghost blank = { record { value = 0; nat = false } };

    ghost first = { record { value = 0; nat = false } };

    fn blank_cell() -> General {
        General {
            value: 0,
            nat: false,
        }
    }

    fn register_zero() -> General {
        General {
            value: 0,
            nat: false,
        }
    }
}

// The bank of predicates.
pub struct Predicates;

impl Kind for Predicates {
    type Cell = bool;

    const FIXED: u16 = 16;

    ghost FIXED = { 16 };

    ghost few = { lit< tt };
}

impl BlankKind for Predicates {
    ghost blank = { false };

    ghost first = { true };

    fn blank_cell() -> bool {
        false
    }

    fn register_zero() -> bool {
        true
    }
}
