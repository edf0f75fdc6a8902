// Single bits and their count.
ghost use Rattle.std.specs.Prelude.{◌≡◌, ◌==◌};
ghost use Rattle.integer.specs.Words.{bit as bit_of, set_bits};

use crate::place::Position;

// Whether this bit is set.
pub fn tbit(x: u64, position: Position) -> bool
    ensures { result ≡ (bit_of position.bit x == 1) }
{
    (x >> position.bit()) % 2 == 1
}

// How many bits are set.
pub fn popcnt(x: u64) -> u64
    ensures { result ≡ set_bits 64 x }
{
    u64::from(x.count_ones())
}
