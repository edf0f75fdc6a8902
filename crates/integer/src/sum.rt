// Sums, differences and pointers. Sums wrap: they are cut to 64 bits.
ghost use Rattle.std.specs.Prelude.{◌≡◌, ◌+◌, ◌-◌, ◌*◌, ◌^◌};
ghost use Rattle.integer.specs.Places.{scale_of};
ghost use Rattle.integer.specs.Words.{pointer, word};

use crate::place::Scale;

pub fn add(a: u64, b: u64) -> u64
    ensures { result ≡ word (a + b) }
{
    a.wrapping_add(b)
}

// The sum and one.
pub fn add_one(a: u64, b: u64) -> u64
    ensures { result ≡ word (a + b + 1) }
{
    add(a, b).wrapping_add(1)
}

pub fn sub(a: u64, b: u64) -> u64
    ensures { result ≡ word (2 ^ 64 + a - b) }
{
    a.wrapping_sub(b)
}

// The difference less one.
pub fn sub_one(a: u64, b: u64) -> u64
    ensures { result ≡ word (2 ^ 64 + a - b - 1) }
{
    sub(a, b).wrapping_sub(1)
}

// The first source, shifted left, and the second.
pub fn shladd(a: u64, scale: Scale, b: u64) -> u64
    ensures { result ≡ word (a * 2 ^ scale_of scale + b) }
{
    (a << scale.bits()).wrapping_add(b)
}

// A pointer of 32 bits: the sum's low half, with the region bits of the second source.
pub fn addp4(a: u64, b: u64) -> u64
    ensures { result ≡ pointer a b }
{
    add(a, b) % 0x1_0000_0000 + ((b >> 30) % 4 << 61)
}

// The same with the first source shifted left.
pub fn shladdp4(a: u64, scale: Scale, b: u64) -> u64
    ensures { result ≡ pointer (a * 2 ^ scale_of scale) b }
{
    addp4(a << scale.bits(), b)
}
