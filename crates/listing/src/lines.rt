// The lines of a bundle.
ghost use Rattle.std.specs.Prelude.{◌≡◌, ◌<◌, ◌≤◌, ◌++◌, length, drop};
ghost use Rattle.listing.specs.Text.{bundle_lines, letter_in, line};
ghost use Rattle.listing.specs.Lister.{answered, after};

use crate::hex::write_hex;
use crate::refusal::Refusal;
use bundle::{Bundle, Template};
use memory::Readable;

// The letter of the unit of a slot; a question mark where the template is reserved.
fn letter(template: Option<Template>, slot: usize) -> u8
    requires { slot < 3 }
    ensures { result ≡ letter_in template slot }
{
    template.map_or(b'?', |template| template.units[slot].letter())
}

// Fills `out` with the line of a slot: by its parts, since `write!` to a slice promises nothing of the bytes that it leaves.
fn write_line(out: &mut [u8], address: u64, slot: u8, letter: u8, bits: u64)
    requires room { length out.old ≡ 33 }
    requires few { slot < 3 }
    ensures { out.new ≡ line address slot letter bits }
{
    write_hex(&mut out[0..16], address);
    out[16..21].copy_from_slice(&[b' ', b'0' + slot, b' ', letter, b' ']);
    write_hex(&mut out[21..32], bits);
    out[32] = b'\n';
}

// Writes the lines of the bundle into the first 99 bytes of `out`.
fn write_bundle(out: &mut [u8], address: u64, bundle: Bundle)
    requires { 99 ≤ length out.old }
    ensures { out.new ≡ bundle_lines address bundle ++ drop 99 out.old }
{
    let (number, slot0, slot1, slot2) = bundle.split();
    let template = Template::try_from(number).ok();
    let slots = [slot0, slot1, slot2];
    // No `chunks_exact_mut`: what was written through it is not known after the loop.
    for (k, bits) in slots.iter().enumerate() {
        let line = &mut out[33 * k..33 * k + 33];
        write_line(line, address, k as u8, letter(template, k), *bits);
    }
}

// Writes the lines of the bundle at the address into the buffer, of which they take the first 99 bytes.
pub fn list_bundle<M: Readable>(memory: &M, address: u64, buffer: &mut [u8]) -> Result<(), Refusal>
    ensures answer { result ≡ answered (M.meaning memory.now) address (length buffer.old) }
    ensures buffer { buffer.new ≡ after (M.meaning memory.now) address buffer.old }
{
    if buffer.len() < 99 {
        return Err(Refusal::ShortBuffer);
    }
    if address % 16 != 0 {
        return Err(Refusal::NotReadable);
    }
    let bundle = Bundle::fetch(memory, address).map_err(|_| Refusal::NotReadable)?;
    write_bundle(buffer, address, bundle);
    Ok(())
}
