// The lines of an image.
use crate::slot::slots;
use arrayvec::ArrayString;
use bundle::Bundle;
use memory::Image;
use std::fmt;
use std::fmt::Write;

// An image at address 0. It is written as a line for each slot of each full bundle: the bundle's address, the slot, and the instruction in
// assembler text, or a question mark and the bits of the slot where no instruction is carried.
#[derive(Clone, Copy)]
pub struct Disassembly<'a> {
    pub image: &'a [u8],
}

fn write_bundle<W: fmt::Write>(
    f: &mut fmt::Formatter<W>,
    address: u64,
    bundle: Bundle,
) -> fmt::Result {
    // The digits are made once for the three lines.
    let mut digits = ArrayString::<16>::new();
    write!(digits, "{address:016X}")?;
    for (number, slot) in slots(address, bundle).iter().enumerate() {
        writeln!(f, "{digits} {number} {slot}")?;
    }
    Ok(())
}

impl fmt::Display for Disassembly<'_> {
    fn fmt<W: fmt::Write>(&self, f: &mut fmt::Formatter<W>) -> fmt::Result {
        let image = Image::new(0, self.image);
        for address in (0..self.image.len() as u64).step_by(16) {
            // A tail of fewer than 16 bytes is not fetched.
            if let Ok(bundle) = Bundle::fetch(&image, address) {
                write_bundle(f, address, bundle)?;
            }
        }
        Ok(())
    }
}
