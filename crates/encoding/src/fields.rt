// Fields of a slot, by first bit and width as the formats write them; a `BitField` of integer, whose numbers are tested, would make each of the
// many calls longer.
ghost use Rattle.std.specs.Prelude.{◌≡◌, ◌/◌, ◌^◌, ◌<◌, min};
ghost use Rattle.encoding.specs.Fields.{bits};

use integer::shr_u;

// The field of `width` bits whose lowest bit is bit `first`.
pub fn field(slot: u64, first: u32, width: u32) -> u64
    ensures value { result ≡ bits first width slot }
    ensures below { result < 2 ^ width }
{
    let high = shr_u(slot, u64::from(first));
    if width < 64 {
        high % (1 << width)
    } else {
        high
    }
}

// The same for a field of at most 8 bits; of a wider one it is the low 8 bits.
pub fn small(slot: u64, first: u32, width: u32) -> u8
    ensures value { result ≡ bits first (min width 8) slot }
    ensures below { result < 2 ^ min width 8 }
{
    field(slot, first, width.min(8)) as u8
}
