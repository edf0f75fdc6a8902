// What becomes of a marker when registers rotate, and at a call.
ghost use Rattle.std.specs.Prelude.{◌≡◌, ◌-◌, ◌≤◌};
ghost use Rattle.registers.specs.Markers.{marker_of};
ghost use Rattle.registers.specs.Moves.{back, called as called_marker, cleared as cleared_marker, with_predicates_cleared, renamed as renamed_marker, rotated as rotated_marker};
ghost use Rattle.registers.specs.Rule.{Bases};

use crate::marker::FrameMarker;

// One place back, around a ring of `size` places.
fn one_back(size: u8, at: u8) -> u8
    requires { at ≤ size - 1 }
    ensures value { result ≡ back size at }
    ensures within { result ≤ size - 1 }
{
    if at > 0 {
        at - 1
    } else {
        size.saturating_sub(1)
    }
}

impl FrameMarker {
    // The marker with these rename bases.
    fn renamed(self, rrb_gr: u8, rrb_fr: u8, rrb_pr: u8) -> FrameMarker
        requires { Bases self.sor rrb_gr rrb_fr rrb_pr }
        ensures { marker_of result ≡ renamed_marker (marker_of self) rrb_gr rrb_fr rrb_pr }
    {
        // Each field by name: `..self` is not supported for a struct with ghost fields.
        FrameMarker {
            sof: self.sof,
            sol: self.sol,
            sor: self.sor,
            rrb_gr,
            rrb_fr,
            rrb_pr,
        }
    }

    // The marker after the registers rotate.
    pub fn rotated(self) -> FrameMarker
        ensures { marker_of result ≡ rotated_marker (marker_of self) }
    {
        let rrb_gr = one_back(8 * self.sor, self.rrb_gr);
        let rrb_fr = one_back(96, self.rrb_fr);
        let rrb_pr = one_back(48, self.rrb_pr);
        self.renamed(rrb_gr, rrb_fr, rrb_pr)
    }

    // The marker with all rename bases zero.
    pub fn cleared(self) -> FrameMarker
        ensures { marker_of result ≡ cleared_marker (marker_of self) }
    {
        self.renamed(0, 0, 0)
    }

    // The marker with the rename base of the predicates zero.
    pub fn predicates_cleared(self) -> FrameMarker
        ensures { marker_of result ≡ with_predicates_cleared (marker_of self) }
    {
        self.renamed(self.rrb_gr, self.rrb_fr, 0)
    }

    // The marker of the frame that a call makes: the outputs.
    pub fn called(self) -> FrameMarker
        ensures { marker_of result ≡ called_marker (marker_of self) }
    {
        FrameMarker {
            sof: self.sof - self.sol,
            sol: 0,
            sor: 0,
            rrb_gr: 0,
            rrb_fr: 0,
            rrb_pr: 0,
        }
    }
}
