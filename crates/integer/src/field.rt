// Fields: extracts and deposits.
ghost use Rattle.std.specs.Prelude.{◌≡◌};
ghost use Rattle.integer.specs.Words.{clip, deposit, field as field_of, signed, word_of};

use crate::extend::{low, sign_extend};
use crate::place::BitField;

// The field, as an unsigned number; past bit 63 there are zeros.
pub fn extr_u(x: u64, field: BitField) -> u64
    ensures { result ≡ field_of x field.position.bit field.length.bits }
{
    low(x >> field.position.bit(), field.length)
}

// The field, or what there is of it, as a signed number.
pub fn extr(x: u64, field: BitField) -> u64
    ensures { result ≡ word_of (signed (clip field.position.bit field.length.bits) (field_of x field.position.bit (clip field.position.bit field.length.bits))) }
{
    sign_extend(x >> field.position.bit(), field.clipped_length())
}

// The second source with a field of it replaced by the low bits of the first; what would pass bit 63 is cut off.
pub fn dep(x: u64, y: u64, field: BitField) -> u64
    ensures { result ≡ deposit x y field.position.bit (clip field.position.bit field.length.bits) }
{
    let at = field.position.bit();
    let length = field.clipped_length();
    y - (low(y >> at, length) << at) + (low(x, length) << at)
}

// The same with zero as the second source.
pub fn dep_z(x: u64, field: BitField) -> u64
    ensures { result ≡ deposit x 0 field.position.bit (clip field.position.bit field.length.bits) }
{
    dep(x, 0, field)
}
