// Shifts.
ghost use Rattle.std.specs.Prelude.{◌≡◌};
ghost use Rattle.integer.specs.Words.{left, pair, right, right_signed};

use crate::place::Position;

pub fn shl(x: u64, count: u64) -> u64
    ensures { result ≡ left x count }
{
    if count < 64 { x << count } else { 0 }
}

pub fn shr_u(x: u64, count: u64) -> u64
    ensures { result ≡ right x count }
{
    if count < 64 { x >> count } else { 0 }
}

pub fn shr(x: u64, count: u64) -> u64
    ensures { result ≡ right_signed x count }
{
    if count < 64 {
        (x.cast_signed() >> count).cast_unsigned()
    } else if x < 0x8000_0000_0000_0000 {
        0
    } else {
        u64::MAX
    }
}

// The low word of the two, the first above the second, shifted right.
pub fn shrp(high: u64, low: u64, count: Position) -> u64
    ensures { result ≡ pair high low count.bit }
{
    (((u128::from(high) << 64) + u128::from(low) >> count.bit()) % 0x1_0000_0000_0000_0000) as u64
}
