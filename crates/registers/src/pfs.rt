// The previous function state: a marker, the epilog count and the privilege level in one word.
ghost use Rattle.std.specs.Prelude.{◌≡◌, ◌<◌, ◌&&◌, is_some, IfSome};
ghost use Rattle.registers.specs.Layout.{unpacked};
ghost use Rattle.registers.specs.Markers.{marker_of, sound};
ghost use Rattle.registers.specs.Pfs.{State, packed_state, reserved_are_clear, state_of, unpacked_state, without_reserved_bits};

use crate::marker::FrameMarker;
use crate::previous::PreviousState;

impl PreviousState {
    // The word.
    pub fn pack(self) -> u64
        ensures value { result ≡ packed_state (state_of self) }
        ensures back { unpacked_state result ≡ state_of self }
    {
        self.marker.pack() + ((self.ec as u64) << 52) + ((self.level as u64) << 62)
    }

    // The parts of a word; none where a reserved bit is set or the marker breaks its rule. Named as the marker's `unpack` is, which is no
    // conversion, since it leaves bits out.
    pub fn unpack(word: u64) -> Option<PreviousState>
        ensures test { is_some result ≡ (reserved_are_clear word && sound (unpacked word)) }
        ensures value { IfSome result (λ s. state_of s ≡ unpacked_state word) }
        ensures back { IfSome result (λ s. packed_state (state_of s) ≡ word) }
    {
        if !reserved_clear(word) {
            return None;
        }
        let marker = FrameMarker::unpack(word)?;
        let ec = ((word >> 52) % 64) as u8;
        let level = (word >> 62) as u8;
        Some(PreviousState { marker, ec, level })
    }
}

// Whether no reserved bit of the word is set: bits 38 to 51 and 58 to 61.
pub fn reserved_clear(word: u64) -> bool
    ensures { result ≡ reserved_are_clear word }
{
    (word >> 38) % 0x4000 == 0 && (word >> 58) % 16 == 0
}

// The word without its reserved bits.
pub fn without_reserved(word: u64) -> u64
    ensures { result ≡ without_reserved_bits word }
{
    word % 0x40_0000_0000 + ((word >> 52) % 64 << 52) + (word >> 62 << 62)
}
