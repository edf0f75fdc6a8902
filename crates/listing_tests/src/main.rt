// Lists an image with reserved templates and an MLX bundle; and tests at the corners of bundles, images and listings.
#![tactic(auto)]

use listing::list_image;
use std::io::Write;
use std::{fs, io};

fn main(rt: HostRuntime) -> io::Result<()> {
    let image = fs::read(&rt, "templates.bin")?;
    let text = list_image(rt.alloc(), &image)?;
    rt.stdout().write_all(&text)
}

#[cfg(test)]
mod tests {
    use bundle::{Bundle, Template, UnknownTemplate};
    use listing::{Refusal, list_bundle, list_image};
    use memory::{Access, Image, MissingRight, Readable, Right, Size};
    use std::alloc::{AllocError, Global};
    use std::test::Fail;

    const ZERO_BUNDLE: &str =
        "0000000000000000 0 M 00000000000\n0000000000000000 1 I 00000000000\n0000000000000000 2 I 00000000000\n";

    // Of this many bytes, from this address up.
    fn access(address: u64, size: Size) -> Access {
        Access { address, size }
    }

    // The length of the listing of this many zero bytes.
    fn listed(heap: Global, count: usize) -> Result<usize, AllocError> {
        let bytes = vec![in heap; 0u8; count]?;
        Ok(list_image(heap, &bytes)?.len())
    }

    #[test]
    fn full_bundles_are_listed(rt: HostRuntime) -> Result<(), Fail> {
        let bundles = [
            (0, 0),
            (15, 0),
            (16, 1),
            (17, 1),
            (65535, 4095),
            (65536, 4096),
            (65537, 4096),
            (70000, 4096),
        ];
        for (bytes, count) in bundles {
            assert_eq!(rt; listed(rt.alloc(), bytes)?, 99 * count);
        }
        Ok(())
    }

    #[test]
    fn a_slot_spans_both_words(rt: HostRuntime) {
        let (template, slot0, slot1, slot2) = Bundle {
            low: 0xFFFF_C000_0000_0000,
            high: 0,
        }
        .split();
        assert_eq!(rt; template, 0);
        assert_eq!(rt; slot0, 0);
        assert_eq!(rt; slot1, 0x3FFFF);
        assert_eq!(rt; slot2, 0);
    }

    #[test]
    fn a_short_buffer_is_refused_first(rt: HostRuntime) {
        let image = Image::new(0, &[0; 16]);
        let mut buffer = [7; 98];
        assert_eq!(rt;
            list_bundle(&image, 8, &mut buffer),
            Err(Refusal::ShortBuffer)
        );
        assert_eq!(rt;
            list_bundle(&image, 0, &mut buffer),
            Err(Refusal::ShortBuffer)
        );
        assert_eq!(rt; Refusal::ShortBuffer.number(), 28);
        assert!(rt; buffer == [7; 98]);
    }

    #[test]
    fn the_rest_of_the_buffer_stays(rt: HostRuntime) {
        let image = Image::new(0, &[0; 16]);
        let mut exact = [7; 99];
        assert_eq!(rt; list_bundle(&image, 0, &mut exact), Ok(()));
        assert!(rt; &exact[0..99] == ZERO_BUNDLE.as_bytes());
        let mut longer = [7; 101];
        assert_eq!(rt; list_bundle(&image, 0, &mut longer), Ok(()));
        assert!(rt; &longer[0..99] == ZERO_BUNDLE.as_bytes());
        assert!(rt; &longer[99..101] == [7, 7].as_slice());
    }

    #[test]
    fn no_bundle_is_refused(rt: HostRuntime) {
        let image = Image::new(0, &[0; 31]);
        let mut buffer = [7; 99];
        assert_eq!(rt;
            list_bundle(&image, 8, &mut buffer),
            Err(Refusal::NotReadable)
        );
        assert_eq!(rt;
            list_bundle(&image, 16, &mut buffer),
            Err(Refusal::NotReadable)
        );
        assert_eq!(rt;
            list_bundle(&image, u64::MAX, &mut buffer),
            Err(Refusal::NotReadable)
        );
        assert_eq!(rt; Refusal::NotReadable.number(), 24);
        assert!(rt; buffer == [7; 99]);
    }

    #[test]
    fn an_image_ends_at_the_top_address(rt: HostRuntime) {
        let mut buffer = [7; 99];
        let last_bundle = Image::new(u64::MAX - 15, &[0xFF; 17]);
        assert_eq!(rt;
            list_bundle(&last_bundle, u64::MAX - 15, &mut buffer),
            Ok(())
        );
        assert!(rt; &buffer[0..33] == b"FFFFFFFFFFFFFFF0 0 ? 1FFFFFFFFFF\n".as_slice());
        let half = Image::new(u64::MAX - 7, &[0xFF; 16]);
        assert_eq!(rt;
            list_bundle(&half, u64::MAX - 15, &mut buffer),
            Err(Refusal::NotReadable)
        );
        assert!(rt; half.grants(Right::Read, access(u64::MAX - 7, Size::Eight)));
        assert!(rt; !half.grants(Right::Read, access(u64::MAX - 6, Size::Eight)));
        assert!(rt; half.grants(Right::Read, access(u64::MAX, Size::One)));
        assert!(rt; !half.grants(Right::Read, access(u64::MAX, Size::Two)));
        assert!(rt; !half.grants(Right::Read, access(0, Size::One)));
    }

    #[test]
    fn an_image_is_only_read(rt: HostRuntime) {
        let image = Image::new(0x1000, &[1, 2, 3, 4, 5, 6, 7, 8, 9]);
        assert!(rt; !image.grants(Right::Write, access(0x1000, Size::One)));
        assert!(rt; !image.grants(Right::Speculative, access(0x1000, Size::One)));
        assert_eq!(rt;
            image.load(access(0x1001, Size::Eight)),
            Ok(0x0908_0706_0504_0302)
        );
        assert_eq!(rt; image.load(access(0x1005, Size::Four)), Ok(0x0908_0706));
        assert_eq!(rt; image.load(access(0x1007, Size::Two)), Ok(0x0908));
        assert_eq!(rt; image.load(access(0x1008, Size::One)), Ok(9));
        assert_eq!(rt;
            image.load(access(0x1006, Size::Four)),
            Err(MissingRight { address: 0x1006 })
        );
    }

    #[test]
    fn reserved_templates_have_no_units(rt: HostRuntime) {
        for number in [0x06, 0x07, 0x14, 0x15, 0x1A, 0x1B, 0x1E, 0x1F, 0x20, 0xFF] {
            assert_eq!(rt; Template::try_from(number), Err(UnknownTemplate { number }));
        }
    }
}
