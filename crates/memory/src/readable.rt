// The interface of a memory that is read.
ghost use Rattle.std.specs.Prelude.{◌≡◌, ℕ, ◌^◌, ◌≤◌};
ghost use Rattle.memory.specs.Access.{bytes_of};
ghost use Rattle.memory.specs.Meaning.{Meaning, granted, loaded, nowhere};

use crate::access::{Access, MissingRight, Right};

pub trait Readable {
    // What the memory means: a byte and rights for each address.
    ghost meaning: { Self → Meaning };

    // There is no memory past the top address, so an access that would pass it has no right.
    ghost bounded: { (memory : Self) (a : ℕ) → 2 ^ 64 ≤ a → meaning memory a ≡ nowhere };

    // The little-endian word of the access, if each of its bytes may be read.
    fn load(&self, access: Access) -> Result<u64, MissingRight>
        ensures { result ≡ loaded (meaning self.now) access.address access.size };

    // Whether each byte of the access has the right.
    fn grants(&self, right: Right, access: Access) -> bool
        ensures { result ≡ granted (meaning self.now) right access.address (bytes_of access.size) };
}
