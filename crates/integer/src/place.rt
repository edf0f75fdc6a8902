// Bit positions, lengths of fields, and the shifts of shladd.
ghost use Rattle.std.specs.Prelude.{◌≡◌, ◌+◌, ◌%◌, ◌<◌, ◌≤◌, ◌&&◌, is_some, IfSome, nat_le, nat_lt};
ghost use Rattle.integer.specs.Places.{scale_of};
ghost use Rattle.integer.specs.Words.{clip};

// The number of a bit of a word, 0 to 63.
#[derive(Clone, Copy, PartialEq, Eq, Debug)]
pub struct Position {
    bit: u8,
    ghost within: { bit < 64 },
}

// How many bits a field has, 1 to 64: a count, where a position is a number from 0.
#[derive(Clone, Copy, PartialEq, Eq, Debug)]
pub struct Length {
    pub(crate) bits: u8,
    ghost some: { 1 ≤ bits },
    ghost few: { bits ≤ 64 },
}

// A field of a word: the position of its lowest bit, and its length.
#[derive(Clone, Copy, PartialEq, Eq, Debug)]
pub struct BitField {
    pub position: Position,
    pub length: Length,
}

// By how many bits shladd shifts its first source.
#[derive(Clone, Copy, PartialEq, Eq, Debug)]
pub enum Scale {
    One,
    Two,
    Three,
    Four,
}

impl Position {
    // The position of this number, if a word has it; a constructor, as the library's `NonZero::new` is. No `then_some`, which would make the
    // position before the test.
    pub fn new(bit: u8) -> Option<Position>
        ensures test { is_some result ≡ nat_lt bit 64 }
        ensures value { IfSome result (λ p. p.bit ≡ bit) }
    {
        if bit < 64 {
            Some(Position { bit })
        } else {
            None
        }
    }

    // The position that the low six bits give.
    pub fn from_low_bits(n: u8) -> Position
        ensures { result.bit ≡ n % 64 }
    {
        Position { bit: n % 64 }
    }

    pub fn bit(self) -> u32
        ensures value { result ≡ self.bit }
        ensures within { result < 64 }
    {
        u32::from(self.bit)
    }
}

impl Length {
    // A length of this many bits, if a field can have it; a constructor, as the library's `NonZero::new` is.
    pub fn new(bits: u8) -> Option<Length>
        ensures test { is_some result ≡ (nat_le 1 bits && nat_le bits 64) }
        ensures value { IfSome result (λ l. l.bits ≡ bits) }
    {
        if 1 <= bits && bits <= 64 {
            Some(Length { bits })
        } else {
            None
        }
    }

    // The length that is one more than the low six bits.
    pub fn from_low_bits(n: u8) -> Length
        ensures { result.bits ≡ n % 64 + 1 }
    {
        Length { bits: n % 64 + 1 }
    }

    pub fn bits(self) -> u32
        ensures value { result ≡ self.bits }
        ensures some { 1 ≤ result }
        ensures few { result ≤ 64 }
    {
        u32::from(self.bits)
    }
}

impl BitField {
    // How many of its bits there are in a word.
    pub(crate) fn clipped_length(self) -> Length
        ensures { result.bits ≡ clip self.position.bit self.length.bits }
    {
        Length {
            bits: self.length.bits.min(64 - self.position.bit),
        }
    }
}

impl Scale {
    // By how many bits: a method, since its name says what the number is.
    pub fn bits(self) -> u32
        ensures value { result ≡ scale_of self }
        ensures few { result ≤ 4 }
    {
        match self {
            Scale::One => 1,
            Scale::Two => 2,
            Scale::Three => 3,
            Scale::Four => 4,
        }
    }
}
