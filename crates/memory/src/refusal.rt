// Why the set-up of a memory refuses a call: for other reasons than the lister, so with an enum of its own.
ghost use Rattle.std.specs.Prelude.{◌≡◌};
ghost use Rattle.memory.specs.Refusals.{number_of};

#[derive(Clone, Copy, PartialEq, Eq, Debug)]
pub enum Refusal {
    // There is no room for one more page or range, or no bytes for the page.
    NoRoom,
    // The page's base is no multiple of the page's size, or is mapped already.
    BadBase,
}

impl Refusal {
    // The number of the refusal: a method, since its name says what the byte is.
    pub fn number(self) -> u8
        ensures { result ≡ number_of self }
    {
        match self {
            Refusal::NoRoom => 26,
            Refusal::BadBase => 25,
        }
    }
}
