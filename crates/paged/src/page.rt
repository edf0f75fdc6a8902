// Pages, and where an address lies in them.
use memory::Rights;

// A page of 4,096 bytes.
#[derive(Clone, Copy, PartialEq, Eq, Debug, Default)]
pub struct Page {
    pub base: u64,
    pub rights: Rights,
}

// Where an address lies: its place in the caller's bytes, and the rights to it.
#[derive(Clone, Copy, PartialEq, Eq, Debug, Default)]
pub struct Place {
    pub offset: u64,
    pub rights: Rights,
}

// A page's base and where it lies.
#[derive(Clone, Copy)]
pub struct Hint {
    pub base: u64,
    pub place: Place,
}
