// The interface of a memory that is written too.
ghost use Rattle.std.specs.Prelude.{◌≡◌};
ghost use Rattle.memory.specs.Meaning.{store_answer, stored};

use crate::access::{Access, MissingRight};
use crate::readable::Readable;

pub trait Writable: Readable {
    // Puts the low bytes of the value there if each byte of the access may be written; otherwise changes nothing.
    fn store(&mut self, access: Access, value: u64) -> Result<(), MissingRight>
        ensures answer { result ≡ store_answer (Self.Readable.meaning self.old) access.address access.size }
        ensures after { Self.Readable.meaning self.new ≡ stored (Self.Readable.meaning self.old) access.address access.size value };
}
