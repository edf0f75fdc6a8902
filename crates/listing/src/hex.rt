// Hexadecimal text.
ghost use Rattle.std.specs.Prelude.{◌≡◌, ◌<◌, ◌≤◌, length};
ghost use Rattle.listing.specs.Text.{hex_digit, hex_text};

// The capital digit of a number below 16.
fn digit(number: u8) -> u8
    requires { number < 16 }
    ensures { result ≡ hex_digit number }
{
    if number < 10 {
        b'0' + number
    } else {
        b'A' + (number - 10)
    }
}

// Fills `out` with the low digits of the value, the most significant first, as `{:X}` of that width would write them.
pub(crate) fn write_hex(out: &mut [u8], value: u64)
    requires { length out.old ≤ 16 }
    ensures { out.new ≡ hex_text (length out.old) value }
{
    let count = out.len();
    // Counted from the left, as the definition has the digits.
    for (i, place) in out.iter_mut().enumerate() {
        *place = digit(((value >> (4 * (count - 1 - i))) % 16) as u8);
    }
}
