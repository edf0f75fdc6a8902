// Accesses to a slice of bytes that lies from an address up: what flat memory, which lends its bytes to be written, and an image,
// which lends them to be read, have in common.
// Base and bytes are two arguments: one struct cannot lend bytes both to be read and to be written.
ghost use Rattle.std.specs.Prelude.{◌≡◌, ℕ, ◌+◌, ◌^◌, ◌≤◌, true, length, take, drop, if◌then◌else◌, Ok, Err, slice_index};
ghost use Rattle.memory.specs.Access.{bytes_of, has as has_right};
ghost use Rattle.memory.specs.Kinds.{inside, laid};
ghost use Rattle.memory.specs.Meaning.{each, loaded, put, replaced, word};

use crate::access::{Access, MissingRight, Right, Rights, Size};

// Whether each byte of an access is among the `len` bytes from `base` up, and none of them is past the top address.
#[tactic(auto, using(crate::proofs::Ranges::covering))]
pub fn covers(base: u64, len: usize, access: Access) -> bool
    ensures value { result ≡ each (inside base len) access.address (bytes_of access.size) }
    ensures ends { result ≡ true → let count = bytes_of access.size in (base ≤ access.address) × (access.address + count ≤ base + len) × (access.address + count ≤ 2 ^ 64) }
{
    let address = access.address;
    if address < base {
        return false;
    }
    let at = address - base;
    let len = len as u64;
    let count = access.size.bytes();
    if len < at {
        return false;
    }
    if len - at < count {
        return false;
    }
    count - 1 <= u64::MAX - address
}

// The N bytes at this place.
fn bytes_at<const N: usize>(bytes: &[u8], at: usize) -> [u8; N]
    requires { at + N ≤ length bytes.now }
    ensures { result ≡ take N (drop at bytes.now) }
{
    bytes[at..at + N].try_into().unwrap()
}

// The little-endian word at this place.
pub(crate) fn word_at(bytes: &[u8], at: usize, size: Size) -> u64
    requires { at + bytes_of size ≤ length bytes.now }
    ensures { result ≡ word (λ i. slice_index bytes.now i) at (bytes_of size) }
{
    match size {
        Size::One => bytes[at] as u64,
        Size::Two => u16::from_le_bytes(bytes_at(bytes, at)) as u64,
        Size::Four => u32::from_le_bytes(bytes_at(bytes, at)) as u64,
        Size::Eight => u64::from_le_bytes(bytes_at(bytes, at)),
    }
}

// A load from bytes that lie from `base` up and can be read.
pub fn load_from(base: u64, bytes: &[u8], access: Access) -> Result<u64, MissingRight>
    ensures { (rights : Rights) → has_right rights Right.Read ≡ true → result ≡ loaded (laid rights base bytes.now) access.address access.size }
{
    if !covers(base, bytes.len(), access) {
        return Err(MissingRight {
            address: access.address,
        });
    }
    Ok(word_at(bytes, (access.address - base) as usize, access.size))
}

// Puts the low bytes of the value at this place, the least significant first.
pub(crate) fn put_at(bytes: &mut [u8], at: usize, size: Size, value: u64)
    requires { at + bytes_of size ≤ length bytes.old }
    ensures { (k : ℕ) → slice_index bytes.new k ≡ replaced (λ i. slice_index bytes.old i) at (bytes_of size) value k }
{
    let all = value.to_le_bytes();
    // Four copies of fixed lengths: one copy of a length that varies takes half as long again.
    match size {
        Size::One => bytes[at..at + 1].copy_from_slice(&all[0..1]),
        Size::Two => bytes[at..at + 2].copy_from_slice(&all[0..2]),
        Size::Four => bytes[at..at + 4].copy_from_slice(&all[0..4]),
        Size::Eight => bytes[at..at + 8].copy_from_slice(&all[0..8]),
    }
}

// A store into bytes that lie from `base` up and can be written.
pub fn store_into(
    base: u64,
    bytes: &mut [u8],
    access: Access,
    value: u64,
) -> Result<(), MissingRight>
    ensures answer { result ≡ (if each (inside base (length bytes.old)) access.address (bytes_of access.size) then Ok tt else Err (record { address = access.address })) }
    ensures after { (rights : Rights) → laid rights base bytes.new ≡ (if each (inside base (length bytes.old)) access.address (bytes_of access.size) then put (laid rights base bytes.old) access.address (bytes_of access.size) value else laid rights base bytes.old) }
{
    if !covers(base, bytes.len(), access) {
        return Err(MissingRight {
            address: access.address,
        });
    }
    put_at(bytes, (access.address - base) as usize, access.size, value);
    Ok(())
}
