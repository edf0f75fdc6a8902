// The records of the B unit's instructions: branches, and what clears rename bases.

// Whether the branch is likely taken, and whether by a static or a dynamic prediction.
#[derive(Clone, Copy, PartialEq, Eq, Debug)]
pub enum Whether {
    Sptk,
    Spnt,
    Dptk,
    Dpnt,
}

// How many lines are fetched ahead.
#[derive(Clone, Copy, PartialEq, Eq, Debug)]
pub enum Prefetch {
    Few,
    Many,
}

// The hints of a branch. `clr` frees the branch's place in a cache of predictions.
#[derive(Clone, Copy, PartialEq, Eq, Debug)]
pub struct Hints {
    pub whether: Whether,
    pub prefetch: Prefetch,
    pub clr: bool,
}

// The branches with an offset and a qualifying predicate.
#[derive(Clone, Copy, PartialEq, Eq, Debug)]
pub enum Relative {
    Cond,
    Wexit,
    Wtop,
}

// The branches with an offset that count by LC.
#[derive(Clone, Copy, PartialEq, Eq, Debug)]
pub enum Counted {
    Cloop,
    Cexit,
    Ctop,
}

// The branches to a branch register.
#[derive(Clone, Copy, PartialEq, Eq, Debug)]
pub enum Indirect {
    Cond,
    Ret,
}

// What a prediction says of the branch that it names.
#[derive(Clone, Copy, PartialEq, Eq, Debug)]
pub enum Predicted {
    Sptk,
    Loop,
    Dptk,
    Exit,
}

// The hints of a prediction. `tag` is the offset in bytes to the branch.
#[derive(Clone, Copy, PartialEq, Eq, Debug)]
pub struct Prediction {
    pub predicted: Predicted,
    pub imp: bool,
    pub tag: u64,
}

// An instruction of the B unit, but for its qualifying predicate; offsets are in bytes.
#[derive(Clone, Copy, PartialEq, Eq, Debug)]
pub enum Branch {
    Relative {
        branch: Relative,
        hints: Hints,
        offset: u64,
    },
    Counted {
        branch: Counted,
        hints: Hints,
        offset: u64,
    },
    Call {
        hints: Hints,
        b1: u8,
        offset: u64,
    },
    Indirect {
        branch: Indirect,
        hints: Hints,
        b2: u8,
    },
    // The hint has a third bit, whose meaning is given only where it is set.
    CallIndirect {
        hints: Hints,
        known: bool,
        b1: u8,
        b2: u8,
    },
    Predict {
        prediction: Prediction,
        offset: u64,
    },
    PredictIndirect {
        branch: Indirect,
        prediction: Prediction,
        b2: u8,
    },
    Clrrrb,
    ClrrrbPr,
    Nop {
        imm: u64,
    },
    Break {
        imm: u64,
    },
}
