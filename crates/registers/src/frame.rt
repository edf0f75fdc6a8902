// The frame: a marker, and the stacked cell at which it starts.
ghost use Rattle.std.specs.Prelude.{◌+◌, ◌≤◌};

use crate::marker::FrameMarker;

// The frame has the cells from `base` on of the 4,096 stacked ones.
#[derive(Clone, Copy, PartialEq, Eq, Debug)]
pub struct Frame {
    pub marker: FrameMarker,
    pub base: u16,
    ghost fits: { base + marker.sof ≤ 4096 },
}
