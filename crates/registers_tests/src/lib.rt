// Tests at the corners of banks, markers and frames.
#![tactic(auto)]

#[cfg(test)]
mod tests {
    use registers::{
        Frame, FrameMarker, General, Generals, Predicates, PreviousState, blank_cells,
        predicate_word, reserved_clear, set_predicate_word, without_reserved,
    };

    // The bits of a marker, of six numbers.
    fn bits(sof: u64, sol: u64, sor: u64, gr: u64, fr: u64, pr: u64) -> u64 {
        sof | sol << 7 | sor << 14 | gr << 18 | fr << 25 | pr << 32
    }

    // The frame whose marker has these bits, if there is one.
    fn frame(marker: u64, base: u16) -> Option<Frame> {
        Frame::new(FrameMarker::unpack(marker)?, base)
    }

    // The bits of the marker, unpacked and packed again.
    fn repacked(marker: u64) -> Option<u64> {
        FrameMarker::unpack(marker).map(FrameMarker::pack)
    }

    // The bits of the marker after one rotation.
    fn rotated(marker: u64) -> Option<u64> {
        FrameMarker::unpack(marker).map(|m| m.rotated().pack())
    }

    // The word of a previous function state, unpacked and packed again.
    fn repacked_state(word: u64) -> Option<u64> {
        PreviousState::unpack(word).map(PreviousState::pack)
    }

    #[test]
    fn markers_within_the_rule(rt: HostRuntime) {
        let table = [
            bits(0, 0, 0, 0, 0, 0),
            bits(96, 96, 12, 95, 95, 47),
            bits(8, 8, 1, 7, 0, 0),
            bits(96, 0, 0, 0, 95, 0),
        ];
        for word in table {
            assert_eq!(rt; repacked(word), Some(word));
        }
    }

    #[test]
    fn markers_outside_the_rule(rt: HostRuntime) {
        let table = [
            bits(97, 0, 0, 0, 0, 0),
            bits(8, 9, 0, 0, 0, 0),
            bits(7, 0, 1, 0, 0, 0),
            bits(8, 0, 1, 8, 0, 0),
            bits(8, 0, 0, 1, 0, 0),
            bits(0, 0, 0, 0, 96, 0),
            bits(0, 0, 0, 0, 0, 48),
        ];
        for word in table {
            assert_eq!(rt; repacked(word), None);
        }
    }

    #[test]
    fn rotations(rt: HostRuntime) {
        let table = [
            (bits(0, 0, 0, 0, 0, 0), bits(0, 0, 0, 0, 95, 47)),
            (bits(16, 3, 2, 0, 1, 1), bits(16, 3, 2, 15, 0, 0)),
            (bits(16, 3, 2, 15, 95, 47), bits(16, 3, 2, 14, 94, 46)),
        ];
        for (before, after) in table {
            assert_eq!(rt; rotated(before), Some(after));
        }
    }

    // The previous function state has its marker in bits 0 to 37, EC in 52 to 57 and the privilege level in 62 and 63.
    #[test]
    fn previous_states(rt: HostRuntime) {
        let marker = bits(96, 96, 12, 95, 95, 47);
        let full = marker | 63 << 52 | 3 << 62;
        assert_eq!(rt; repacked_state(full), Some(full));
        for bit in [38u32, 51, 58, 61] {
            let word = full | 1 << bit;
            assert!(rt; !reserved_clear(word));
            assert_eq!(rt; repacked_state(word), None);
            assert_eq!(rt; without_reserved(word), full);
        }
    }

    // The start of the frame that a return makes, if it fits.
    fn base_after(base: u16, sol: u64, sof: u64) -> Option<u16> {
        let here = frame(bits(0, 0, 0, 0, 0, 0), base)?;
        let marker = FrameMarker::unpack(bits(sof, sol, 0, 0, 0, 0))?;
        here.returned(marker).ok().map(|there| there.base)
    }

    #[test]
    fn frames_stay_within_the_stacked_cells(rt: HostRuntime) {
        assert!(rt; frame(bits(96, 0, 0, 0, 0, 0), 4000).is_some());
        assert!(rt; frame(bits(96, 0, 0, 0, 0, 0), 4001).is_none());
        assert!(rt; frame(bits(0, 0, 0, 0, 0, 0), 4096).is_some());
        assert!(rt; frame(bits(0, 0, 0, 0, 0, 0), 4097).is_none());
        assert_eq!(rt; base_after(30, 30, 40), Some(0));
        assert_eq!(rt; base_after(29, 30, 40), None);
        assert_eq!(rt; base_after(4096, 30, 30), Some(4066));
        assert_eq!(rt; base_after(4096, 30, 31), None);
    }

    // Predicate 63 is cell 16 where the rename base is 1.
    #[test]
    fn predicates_by_name_and_by_cell(rt: HostRuntime) {
        let marker = FrameMarker::unpack(bits(0, 0, 0, 0, 0, 1)).expect(&rt, "a marker");
        let window = marker.predicate_window();
        let mut cells = [false; 64];
        window.write::<Predicates>(&mut cells, 63, true);
        window.write::<Predicates>(&mut cells, 0, false);
        assert_eq!(rt; predicate_word(&cells), 0x1_0001);
        assert!(rt; window.read::<Predicates>(&cells, 63));
        set_predicate_word(&mut cells, 0x8000_0000_0000_0000, 0x8000_0000_0001_0001);
        assert_eq!(rt; predicate_word(&cells), 0x8000_0000_0000_0001);
        assert!(rt; window.read::<Predicates>(&cells, 62));
    }

    // In a frame of nine registers at base 1, eight of them rotating by 7, r33 is stacked cell 1.
    #[test]
    fn generals_by_name(rt: HostRuntime) {
        let here = frame(bits(9, 0, 1, 7, 0, 0), 1).expect(&rt, "a frame");
        let window = here.window();
        let blank = General::default();
        let five = General {
            value: 5,
            nat: true,
        };
        let mut cells = [blank; 42];
        window.write::<Generals>(&mut cells, 33, five);
        assert_eq!(rt; cells[33], five);
        assert_eq!(rt; window.read::<Generals>(&cells, 33), five);
        window.write::<Generals>(&mut cells, 0, five);
        window.write::<Generals>(&mut cells, 41, five);
        assert_eq!(rt; window.read::<Generals>(&cells, 0), blank);
        assert_eq!(rt; window.read::<Generals>(&cells, 41), blank);
        assert_eq!(rt; cells[41], blank);
        blank_cells::<Generals>(&mut cells, 33, 1);
        assert_eq!(rt; window.read::<Generals>(&cells, 33), blank);
    }
}
