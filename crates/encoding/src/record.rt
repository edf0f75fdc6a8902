// What the records of several units have in common.

// The parallel compare types: how a compare or a test changes targets that others may change beside it.
#[derive(Clone, Copy, PartialEq, Eq, Debug)]
pub enum Parallel {
    And,
    Or,
    OrAndcm,
}
