// Flat memory: bytes of the caller with all rights.
ghost use Rattle.std.specs.Prelude.{◌≡◌};
ghost use Rattle.memory.specs.Kinds.{flat, flat-bounded};

use crate::access::{Access, MissingRight, Right};
use crate::bytes::{covers, load_from, store_into};
use crate::readable::Readable;
use crate::writable::Writable;

// The bytes from `base` up have all rights; elsewhere there is no memory. An image is a type beside it, since its bytes are lent to be read.
#[derive(Drop)]
pub struct Flat<'a> {
    base: u64,
    bytes: &'a mut [u8],
}

impl<'a> Flat<'a> {
    // The bytes as memory from `base` up. Those that would pass the top address are left out.
    pub fn new(base: u64, bytes: &'a mut [u8]) -> Flat<'a>
        ensures { flat result.base result.bytes.now ≡ flat base bytes.old }
    {
        Flat { base, bytes }
    }
}

impl Readable for Flat<'_> {
    ghost meaning = { λ s. flat s.base s.bytes.now };

    ghost bounded = { λ s. flat-bounded s.base s.bytes.now };

    fn load(&self, access: Access) -> Result<u64, MissingRight> {
        load_from(self.base, self.bytes, access)
    }

    fn grants(&self, _right: Right, access: Access) -> bool {
        covers(self.base, self.bytes.len(), access)
    }
}

impl Writable for Flat<'_> {
    fn store(&mut self, access: Access, value: u64) -> Result<(), MissingRight> {
        store_into(self.base, self.bytes, access, value)
    }
}
