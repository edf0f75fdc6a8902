// The previous function state.
ghost use Rattle.std.specs.Prelude.{◌<◌};

use crate::marker::FrameMarker;

// What a call saves: the caller's marker, the epilog count (six bits) and the privilege level (two bits).
#[derive(Clone, Copy, PartialEq, Eq, Debug)]
pub struct PreviousState {
    pub marker: FrameMarker,
    pub ec: u8,
    pub level: u8,
    ghost few: { ec < 64 },
    ghost privileged: { level < 4 },
}
