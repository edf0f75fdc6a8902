// Markers as 38 bits.
ghost use Rattle.std.specs.Prelude.{◌≡◌, ◌%◌, ◌^◌, is_some, IfSome};
ghost use Rattle.registers.specs.Layout.{packed, unpacked};
ghost use Rattle.registers.specs.Markers.{marker_of, sound};

use crate::marker::FrameMarker;

impl FrameMarker {
    // The bits of the marker.
    pub fn pack(self) -> u64
        ensures value { result ≡ packed (marker_of self) }
        ensures back { unpacked result ≡ marker_of self }
    {
        let sizes = self.sof as u64 + ((self.sol as u64) << 7) + ((self.sor as u64) << 14);
        sizes
            + ((self.rrb_gr as u64) << 18)
            + ((self.rrb_fr as u64) << 25)
            + ((self.rrb_pr as u64) << 32)
    }

    // The marker of the low 38 bits, whatever stands above them; none where they break the rule. No conversion, since it leaves bits out.
    pub fn unpack(bits: u64) -> Option<FrameMarker>
        ensures test { is_some result ≡ sound (unpacked bits) }
        ensures value { IfSome result (λ m. marker_of m ≡ unpacked bits) }
        ensures back { IfSome result (λ m. packed (marker_of m) ≡ bits % 2 ^ 38) }
    {
        let sof = (bits % 128) as u8;
        let sol = ((bits >> 7) % 128) as u8;
        let sor = ((bits >> 14) % 16) as u8;
        let rrb_gr = ((bits >> 18) % 128) as u8;
        let rrb_fr = ((bits >> 25) % 128) as u8;
        let rrb_pr = ((bits >> 32) % 64) as u8;
        if sof > 96 || sol > sof || 8 * sor > sof {
            return None;
        }
        if rrb_gr > (8 * sor).saturating_sub(1) || rrb_fr >= 96 || rrb_pr >= 48 {
            return None;
        }
        Some(FrameMarker {
            sof,
            sol,
            sor,
            rrb_gr,
            rrb_fr,
            rrb_pr,
        })
    }
}
