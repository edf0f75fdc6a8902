// The windows of a frame, and which cell a register names in it.
ghost use Rattle.std.specs.Prelude.{◌≡◌, ◌*◌};
ghost use Rattle.registers.specs.Markers.{marker_of};
ghost use Rattle.registers.specs.Names.{general_cell_of, predicate_cell_of};

use crate::frame::Frame;
use crate::kind::{Generals, Predicates};
use crate::marker::FrameMarker;
use crate::window::Window;

impl Frame {
    // The window of the general registers.
    pub fn window(self) -> Window
        ensures base { result.base ≡ self.base }
        ensures size { result.size ≡ self.marker.sof }
        ensures rotating { result.rotating ≡ 8 * self.marker.sor }
        ensures rename { result.rename ≡ self.marker.rrb_gr }
    {
        let marker = self.marker;
        Window {
            base: self.base,
            size: marker.sof as u16,
            rotating: 8 * marker.sor as u16,
            rename: marker.rrb_gr as u16,
        }
    }

    // The cell of a general register, if the frame has it.
    pub fn general_cell(self, register: u16) -> Option<u16>
        ensures { result ≡ general_cell_of (marker_of self.marker) self.base register }
    {
        self.window().name::<Generals>(register)
    }
}

impl FrameMarker {
    // The window of the predicates.
    pub fn predicate_window(self) -> Window
        ensures base { result.base ≡ 0 }
        ensures size { result.size ≡ 48 }
        ensures rotating { result.rotating ≡ 48 }
        ensures rename { result.rename ≡ self.rrb_pr }
    {
        Window {
            base: 0,
            size: 48,
            rotating: 48,
            rename: self.rrb_pr as u16,
        }
    }

    // The cell of a predicate, if there is one of this number.
    pub fn predicate_cell(self, predicate: u16) -> Option<u16>
        ensures { result ≡ predicate_cell_of (marker_of self) predicate }
    {
        self.predicate_window().name::<Predicates>(predicate)
    }
}
