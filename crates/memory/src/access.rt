// Accesses: which bytes one has, and the rights that it may need.
ghost use Rattle.std.specs.Prelude.{◌≡◌};
ghost use Rattle.memory.specs.Access.{bytes_of, has as has_right};

// How many bytes an access has.
#[derive(Clone, Copy, PartialEq, Eq, Debug, Default)]
pub enum Size {
    #[default]
    One,
    Two,
    Four,
    Eight,
}

// An access to the bytes from an address up.
#[derive(Clone, Copy, PartialEq, Eq, Debug, Default)]
pub struct Access {
    pub address: u64,
    pub size: Size,
}

// A right to a byte: to read it, to write it, to read it ahead of need.
#[derive(Clone, Copy, PartialEq, Eq, Debug)]
pub enum Right {
    Read,
    Write,
    Speculative,
}

// The rights to a byte: none by default.
#[derive(Clone, Copy, PartialEq, Eq, Debug, Default)]
pub struct Rights {
    pub read: bool,
    pub write: bool,
    pub speculative: bool,
}

// An access lacks a right to some byte; the address is the access's.
#[derive(Clone, Copy, PartialEq, Eq, Debug)]
pub struct MissingRight {
    pub address: u64,
}

impl Size {
    // The count of bytes: a method, since its name says what the number is.
    pub fn bytes(self) -> u64
        ensures { result ≡ bytes_of self }
    {
        match self {
            Size::One => 1,
            Size::Two => 2,
            Size::Four => 4,
            Size::Eight => 8,
        }
    }
}

impl Rights {
    // Whether this right is among them.
    pub fn has(self, right: Right) -> bool
        ensures { result ≡ has_right self right }
    {
        match right {
            Right::Read => self.read,
            Right::Write => self.write,
            Right::Speculative => self.speculative,
        }
    }
}
