// Positions and lengths as they stand in a slot.
#![tactic(auto, unfolding(crate::specs::Places::place, crate::specs::Places::place_from_top, crate::specs::Places::extent))]

ghost use Rattle.std.specs.Prelude.{◌≡◌, ◌-◌};
ghost use Rattle.encoding.specs.Fields.{bits};
ghost use Rattle.encoding.specs.Places.{extent, place, place_from_top};

use crate::fields::small;
use integer::{Length, Position};

// The position in the six bits from bit `first` on.
pub fn position(slot: u64, first: u32) -> Position
    ensures value { result ≡ place (bits first 6 slot) }
    ensures field { bits first 6 slot ≡ result.bit }
{
    Position::from_low_bits(small(slot, first, 6))
}

// The position that stands there counted down from bit 63.
pub fn position_from_top(slot: u64, first: u32) -> Position
    ensures value { result ≡ place_from_top (bits first 6 slot) }
    ensures field { bits first 6 slot ≡ 63 - result.bit }
{
    Position::from_low_bits(63 - small(slot, first, 6))
}

// The length that stands, less one, in the six bits from bit `first` on.
pub fn length(slot: u64, first: u32) -> Length
    ensures value { result ≡ extent (bits first 6 slot) }
    ensures field { bits first 6 slot ≡ result.bits - 1 }
{
    Length::from_low_bits(small(slot, first, 6))
}

// The same in four bits. With the width as an argument each call would have a number more, and a width could be one that no format has.
pub fn short_length(slot: u64, first: u32) -> Length
    ensures value { result ≡ extent (bits first 4 slot) }
    ensures field { bits first 4 slot ≡ result.bits - 1 }
{
    Length::from_low_bits(small(slot, first, 4))
}
