// What becomes of a frame at a call, at a return, and when it is made.
ghost use Rattle.std.specs.Prelude.{◌≡◌, is_some, IfSome};
ghost use Rattle.registers.specs.Frames.{answer_of, called_frame, fits, frame_of, returned_frame};
ghost use Rattle.registers.specs.Markers.{marker_of};

use crate::frame::Frame;
use crate::marker::FrameMarker;

// Why a frame does not fit the stacked cells.
#[derive(Clone, Copy, PartialEq, Eq, Debug)]
pub enum Misfit {
    // It would start below the first of them.
    Empty,
    // It would pass the last of them.
    Full,
}

impl Frame {
    // The frame with this marker at this base, if the stacked cells have room for it.
    pub fn new(marker: FrameMarker, base: u16) -> Option<Frame>
        ensures test { is_some result ≡ fits base marker.sof }
        ensures value { IfSome result (λ f. frame_of f ≡ record { marker = marker_of marker; base = base }) }
    {
        if base.checked_add(marker.sof as u16)? > 4096 {
            return None;
        }
        Some(Frame { marker, base })
    }

    // The frame that a call makes: it starts behind the locals, with the outputs.
    pub fn called(self) -> Frame
        ensures { frame_of result ≡ called_frame (frame_of self) }
    {
        let base = self.base + self.marker.sol as u16;
        let marker = self.marker.called();
        Frame { marker, base }
    }

    // The frame that a return to this marker makes: it starts below by the marker's locals.
    pub fn returned(self, marker: FrameMarker) -> Result<Frame, Misfit>
        ensures { answer_of result ≡ returned_frame (frame_of self) (marker_of marker) }
    {
        let sol = marker.sol as u16;
        let base = self.base.checked_sub(sol).ok_or(Misfit::Empty)?;
        Frame::new(marker, base).ok_or(Misfit::Full)
    }
}
