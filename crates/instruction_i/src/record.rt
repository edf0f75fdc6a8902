// The records of the I unit's own instructions: shifts, bit fields, tests of a bit, and moves.
use encoding::Parallel;
use integer::{BitField, Part, Position};

// A test of a bit, by its type. The types none and unc test for zero.
#[derive(Clone, Copy, PartialEq, Eq, Debug)]
pub enum Test {
    Normal,
    Unc,
    Zero(Parallel),
    Nonzero(Parallel),
}

// The application registers that the I unit moves: a type of its own, since the M unit moves others and neither moves the other's.
#[derive(Clone, Copy, PartialEq, Eq, Debug)]
pub enum Application {
    Pfs,
    Lc,
    Ec,
}

// An instruction of the I unit, but for its qualifying predicate. An immediate is the word that the operation takes; the offset of a
// branch is in bytes.
#[derive(Clone, Copy, PartialEq, Eq, Debug)]
pub enum Integer {
    Shl {
        r1: u8,
        r2: u8,
        r3: u8,
    },
    Shr {
        r1: u8,
        r3: u8,
        r2: u8,
    },
    ShrU {
        r1: u8,
        r3: u8,
        r2: u8,
    },
    Shrp {
        r1: u8,
        r2: u8,
        r3: u8,
        count: Position,
    },
    Extr {
        r1: u8,
        r3: u8,
        field: BitField,
    },
    ExtrU {
        r1: u8,
        r3: u8,
        field: BitField,
    },
    Dep {
        r1: u8,
        r2: u8,
        r3: u8,
        field: BitField,
    },
    // The source is all ones, or zero.
    DepBits {
        r1: u8,
        ones: bool,
        r3: u8,
        field: BitField,
    },
    DepZ {
        r1: u8,
        r2: u8,
        field: BitField,
    },
    DepZImmediate {
        r1: u8,
        imm: u64,
        field: BitField,
    },
    Tbit {
        test: Test,
        p1: u8,
        p2: u8,
        r3: u8,
        position: Position,
    },
    Tnat {
        test: Test,
        p1: u8,
        p2: u8,
        r3: u8,
    },
    Popcnt {
        r1: u8,
        r3: u8,
    },
    Sxt {
        part: Part,
        r1: u8,
        r3: u8,
    },
    Zxt {
        part: Part,
        r1: u8,
        r3: u8,
    },
    ChkS {
        r2: u8,
        offset: u64,
    },
    // `ret` is the hint of mov.ret.
    ToBranch {
        ret: bool,
        b1: u8,
        r2: u8,
    },
    FromBranch {
        r1: u8,
        b2: u8,
    },
    ToPredicates {
        r2: u8,
        mask: u64,
    },
    ToRotating {
        imm: u64,
    },
    FromPredicates {
        r1: u8,
    },
    FromIp {
        r1: u8,
    },
    ToApplication {
        register: Application,
        r2: u8,
    },
    ToApplicationImmediate {
        register: Application,
        imm: u64,
    },
    FromApplication {
        r1: u8,
        register: Application,
    },
    Nop {
        imm: u64,
    },
    Break {
        imm: u64,
    },
}
