// Why the lister refuses a call: for other reasons than the set-up of a memory, so with an enum of its own.
ghost use Rattle.std.specs.Prelude.{◌≡◌};
ghost use Rattle.listing.specs.Refusals.{number_of};

#[derive(Clone, Copy, PartialEq, Eq, Debug)]
pub enum Refusal {
    // The buffer has no room for the lines of a bundle.
    ShortBuffer,
    // The address is no bundle's, or some byte of the bundle cannot be read.
    NotReadable,
}

impl Refusal {
    // The number of the refusal: a method, since its name says what the byte is.
    pub fn number(self) -> u8
        ensures { result ≡ number_of self }
    {
        match self {
            Refusal::ShortBuffer => 28,
            Refusal::NotReadable => 24,
        }
    }
}
