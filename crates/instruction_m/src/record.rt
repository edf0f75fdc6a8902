// The records of the M unit's own instructions: loads, stores, checks, the ALAT's invalidation, alloc, and moves.
use memory::Size;

// The type of a load, with its acquire and bias forms.
#[derive(Clone, Copy, PartialEq, Eq, Debug)]
pub enum LoadType {
    Normal,
    S,
    A,
    Sa,
    Bias,
    Acq,
    CClr,
    CNc,
    CClrAcq,
}

// The locality hint of a load or store; `None` is a hint like the others, with a code of its own. The architecture gives no meaning to
// `Two`, nor to `Nt1` of a store.
#[derive(Clone, Copy, PartialEq, Eq, Debug)]
pub enum Hint {
    None,
    Nt1,
    Two,
    Nta,
}

// What is added to the base register after a load.
#[derive(Clone, Copy, PartialEq, Eq, Debug)]
pub enum BaseUpdate {
    Register(u8),
    Immediate(u64),
}

// Whether chk.a drops an entry that it finds.
#[derive(Clone, Copy, PartialEq, Eq, Debug)]
pub enum Clear {
    Clr,
    Nc,
}

// The application registers that the M unit moves: a type of its own, since the I unit moves others and neither moves the other's.
#[derive(Clone, Copy, PartialEq, Eq, Debug)]
pub enum Application {
    Ccv,
    Unat,
}

// An instruction of the M unit, but for its qualifying predicate. An immediate is the word that the operation takes; the offset of a
// branch is in bytes.
#[derive(Clone, Copy, PartialEq, Eq, Debug)]
pub enum Memory {
    // `update` is added to the base register, if there is one.
    Load {
        load_type: LoadType,
        size: Size,
        hint: Hint,
        r1: u8,
        r3: u8,
        update: Option<BaseUpdate>,
    },
    Fill {
        hint: Hint,
        r1: u8,
        r3: u8,
        update: Option<BaseUpdate>,
    },
    // `increment` is added to the base register, if there is one.
    Store {
        release: bool,
        size: Size,
        hint: Hint,
        r3: u8,
        r2: u8,
        increment: Option<u64>,
    },
    Spill {
        hint: Hint,
        r3: u8,
        r2: u8,
        increment: Option<u64>,
    },
    ChkS {
        r2: u8,
        offset: u64,
    },
    ChkA {
        clear: Clear,
        r1: u8,
        offset: u64,
    },
    Invala,
    InvalaE {
        r1: u8,
    },
    Mf,
    Alloc {
        r1: u8,
        sof: u8,
        sol: u8,
        sor: u8,
    },
    ToApplication {
        register: Application,
        r2: u8,
    },
    ToApplicationImmediate {
        register: Application,
        imm: u64,
    },
    FromApplication {
        r1: u8,
        register: Application,
    },
    Nop {
        imm: u64,
    },
    Break {
        imm: u64,
    },
}
