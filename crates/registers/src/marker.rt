// The frame marker.
ghost use Rattle.registers.specs.Rule.{Bases, Sizes};

// The size of the frame, of its locals, and of its rotating part in eights, and the rename bases of the general, floating and
// predicate registers.
#[derive(Clone, Copy, PartialEq, Eq, Debug)]
pub struct FrameMarker {
    pub sof: u8,
    pub sol: u8,
    pub sor: u8,
    pub rrb_gr: u8,
    pub rrb_fr: u8,
    pub rrb_pr: u8,
    ghost sizes: { Sizes sof sol sor },
    ghost bases: { Bases sor rrb_gr rrb_fr rrb_pr },
}
