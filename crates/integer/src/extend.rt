// Sign and zero extension.
ghost use Rattle.std.specs.Prelude.{◌≡◌, ◌%◌, ◌^◌};
ghost use Rattle.integer.specs.Places.{part_bits};
ghost use Rattle.integer.specs.Words.{signed, word_of};

use crate::place::Length;

// The low part of a word that is extended: one, two or four bytes.
#[derive(Clone, Copy, PartialEq, Eq, Debug)]
pub enum Part {
    One,
    Two,
    Four,
}

impl Part {
    // How many bits it has.
    pub fn length(self) -> Length
        ensures { result.bits ≡ part_bits self }
    {
        match self {
            Part::One => Length { bits: 8 },
            Part::Two => Length { bits: 16 },
            Part::Four => Length { bits: 32 },
        }
    }
}

// The low bits.
pub(crate) fn low(x: u64, length: Length) -> u64
    ensures { result ≡ x % 2 ^ length.bits }
{
    let above = 64 - length.bits();
    x << above >> above
}

// The low bits as a signed number, at any length.
pub fn sign_extend(x: u64, length: Length) -> u64
    ensures { result ≡ word_of (signed length.bits (x % 2 ^ length.bits)) }
{
    let above = 64 - length.bits();
    ((x << above).cast_signed() >> above).cast_unsigned()
}

pub fn zxt(part: Part, x: u64) -> u64
    ensures { result ≡ x % 2 ^ part_bits part }
{
    low(x, part.length())
}

pub fn sxt(part: Part, x: u64) -> u64
    ensures { result ≡ word_of (signed (part_bits part) (x % 2 ^ part_bits part)) }
{
    sign_extend(x, part.length())
}
