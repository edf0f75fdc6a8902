// An image: bytes of the caller that are only read.
ghost use Rattle.std.specs.Prelude.{◌≡◌};
ghost use Rattle.memory.specs.Kinds.{image, image-bounded};

use crate::access::{Access, MissingRight, Right, Rights};
use crate::bytes::{covers, load_from};
use crate::readable::Readable;

const READ_ONLY: Rights = Rights {
    read: true,
    write: false,
    speculative: false,
};

// The bytes from `base` up can be read; elsewhere there is no memory. Flat memory is a type beside it, since its bytes are lent to be written.
#[derive(Drop)]
pub struct Image<'a> {
    base: u64,
    bytes: &'a [u8],
}

impl<'a> Image<'a> {
    // The bytes as an image from `base` up. Those that would pass the top address are left out.
    pub fn new(base: u64, bytes: &'a [u8]) -> Image<'a>
        ensures { image result.base result.bytes.now ≡ image base bytes.now }
    {
        Image { base, bytes }
    }
}

impl Readable for Image<'_> {
    ghost meaning = { λ s. image s.base s.bytes.now };

    ghost bounded = { λ s. image-bounded s.base s.bytes.now };

    fn load(&self, access: Access) -> Result<u64, MissingRight> {
        load_from(self.base, self.bytes, access)
    }

    fn grants(&self, right: Right, access: Access) -> bool {
        READ_ONLY.has(right) && covers(self.base, self.bytes.len(), access)
    }
}
