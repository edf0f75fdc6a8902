// The listing of a whole image.
ghost use Rattle.std.specs.Prelude.{◌≡◌, ◌/◌, ◌≤◌, length, IfOk};
ghost use Rattle.listing.specs.Lister.{first_lines, image_lines};

use crate::lines::list_bundle;
use memory::Image;
use std::alloc::{AllocError, Global};

// The bytes of an image that count; those past them are left out.
const LIMIT: usize = 65536;

// The lines of every full bundle of an image at address 0.
fn list_all(heap: Global, bytes: &[u8]) -> Result<Vec<u8>, AllocError>
    requires { length bytes.now ≤ 65536 }
    ensures { IfOk result (λ text. text.items ≡ first_lines bytes.now (length bytes.now / 16)) }
{
    let image = Image::new(0, bytes);
    let count = bytes.len() / 16;
    let mut text = Vec::with_capacity(heap, 99 * count)?;
    let mut lines = [0; 99];
    // By number, and not by addresses in steps of 16: the text so far is the lines of so many bundles.
    for k in 0..count {
        list_bundle(&image, 16 * k as u64, &mut lines).unwrap();
        text.extend_from_slice(&lines)?;
    }
    Ok(text)
}

// The lines of every full bundle of the bytes, as an image at address 0. Only the first 65,536 bytes count.
pub fn list_image(heap: Global, bytes: &[u8]) -> Result<Vec<u8>, AllocError>
    ensures { IfOk result (λ text. text.items ≡ image_lines bytes.now) }
{
    if bytes.len() > LIMIT {
        list_all(heap, &bytes[0..LIMIT])
    } else {
        list_all(heap, bytes)
    }
}
