// Paged memory as a kind of memory.
ghost use Rattle.std.specs.Prelude.{◌≡◌, ◌+◌, ◌-◌, ◌%◌, ◌≤◌, length, nat_lt, Some};
ghost use Rattle.memory.specs.Access.{bytes_of, has as has_right};
ghost use Rattle.memory.specs.Meaning.{granted, loaded, store_answer, stored};
ghost use Rattle.paged.specs.Kind.{meaning_of};
ghost use Rattle.std.specs.Option.{option_map};
ghost use Rattle.paged.specs.Pages.{Separate, offset_with, paged, paged-bounded as paged_bounded, place_for};

use crate::table::PageTable;
use memory::{
    Access, MissingRight, Readable, Right, Size, Writable, covers, load_from, store_into,
};

// The pages of a table over bytes of the caller. The table is lent, so that several memories can have the same pages.
#[derive(Drop)]
pub struct Paged<'a> {
    table: &'a PageTable,
    bytes: &'a mut [u8],
}

// Whether an access passes the end of a page.
fn crosses(access: Access) -> bool
    ensures { result ≡ nat_lt (4096 - access.address % 4096) (bytes_of access.size) }
{
    4096 - access.address % 4096 < access.size.bytes()
}

impl<'a> Paged<'a> {
    // The pages of the table, each over its bytes: the first page over the first 4,096, and so on.
    pub fn new(table: &'a PageTable, bytes: &'a mut [u8]) -> Paged<'a>
        ensures meaning { meaning_of result ≡ paged table.now bytes.old }
        ensures few { length table.now ≤ 64 }
        ensures separate { Separate table.now }
    {
        table.kept();
        Paged { table, bytes }
    }
}

// Where an option decides on a question, `let .. else` stands: with `is_some_and` or `and_then` the proof does not close.
impl Paged<'_> {
    // Where in the caller's bytes an access lies that stays in a page, if the page has the right.
    fn in_bytes(&self, right: Right, access: Access) -> Option<Access>
        ensures place { option_map (λ behind. behind.address) result ≡ offset_with right (place_for self.now.table.now access.address) }
        ensures size { (behind : Access) → result ≡ Some behind → behind.size ≡ access.size }
        ensures separate { Separate self.now.table.now }
    {
        let address = self.table.locate(access.address, right)?;
        Some(Access { address, ..access })
    }

    // Whether each byte of an access that stays in a page has the right.
    fn grants_in_page(&self, right: Right, access: Access) -> bool
        requires { bytes_of access.size ≤ 4096 - access.address % 4096 }
        ensures { result ≡ granted (meaning_of self.now) right access.address (bytes_of access.size) }
    {
        let Some(behind) = self.in_bytes(right, access) else {
            return false;
        };
        covers(0, self.bytes.len(), behind)
    }

    // A store that stays in a page.
    fn store_in_page(&mut self, access: Access, value: u64) -> Result<(), MissingRight>
        requires { bytes_of access.size ≤ 4096 - access.address % 4096 }
        ensures answer { result ≡ store_answer (meaning_of self.old) access.address access.size }
        ensures after { meaning_of self.new ≡ stored (meaning_of self.old) access.address access.size value }
    {
        let missing = MissingRight {
            address: access.address,
        };
        let behind = self.in_bytes(Right::Write, access).ok_or(missing)?;
        store_into(0, self.bytes, behind, value).or(Err(missing))
    }

    // The byte at the address; 0 where there is none.
    fn byte(&self, address: u64) -> u8
        ensures { result ≡ (meaning_of self.now address).byte }
    {
        let Some(place) = self.table.place(address) else {
            return 0;
        };
        self.bytes.get(place.offset as usize).copied().unwrap_or(0)
    }

    // Whether the byte at this offset in the access has the right.
    fn grants_byte(&self, right: Right, access: Access, i: u64) -> bool
        ensures { result ≡ has_right (meaning_of self.now (access.address + i)).rights right }
    {
        let Some(address) = access.address.checked_add(i) else {
            return false;
        };
        let size = Size::One;
        self.grants_in_page(right, Access { address, size })
    }

    // Whether each byte of an access that may pass the end of a page has the right.
    fn grants_across(&self, right: Right, access: Access) -> bool
        ensures { result ≡ granted (meaning_of self.now) right access.address (bytes_of access.size) }
    {
        (0..access.size.bytes()).all(|i| self.grants_byte(right, access, i))
    }

    // A load that may pass the end of a page, byte by byte.
    fn load_across(&self, access: Access) -> Result<u64, MissingRight>
        ensures { result ≡ loaded (meaning_of self.now) access.address access.size }
    {
        if !self.grants_across(Right::Read, access) {
            return Err(MissingRight {
                address: access.address,
            });
        }
        let mut word = [0; 8];
        let count = access.size.bytes() as usize;
        for (i, byte) in word[..count].iter_mut().enumerate() {
            *byte = self.byte(access.address + i as u64);
        }
        load_from(
            0,
            &word,
            Access {
                address: 0,
                ..access
            },
        )
    }

    // A store that may pass the end of a page, byte by byte.
    fn store_across(&mut self, access: Access, value: u64) -> Result<(), MissingRight>
        ensures answer { result ≡ store_answer (meaning_of self.old) access.address access.size }
        ensures after { meaning_of self.new ≡ stored (meaning_of self.old) access.address access.size value }
    {
        if !self.grants_across(Right::Write, access) {
            return Err(MissingRight {
                address: access.address,
            });
        }
        let bytes = value.to_le_bytes();
        for (i, byte) in bytes[..access.size.bytes() as usize].iter().enumerate() {
            let at = Access {
                address: access.address + i as u64,
                size: Size::One,
            };
            // It is stored, since each byte of the access has the right.
            let _ = self.store_in_page(at, u64::from(*byte));
        }
        Ok(())
    }
}

impl Readable for Paged<'_> {
    ghost meaning = { meaning_of };

    ghost bounded = { λ s. paged_bounded s.table.now s.bytes.now };

    fn load(&self, access: Access) -> Result<u64, MissingRight> {
        if crosses(access) {
            return self.load_across(access);
        }
        let missing = MissingRight {
            address: access.address,
        };
        let behind = self.in_bytes(Right::Read, access).ok_or(missing)?;
        load_from(0, self.bytes, behind).or(Err(missing))
    }

    fn grants(&self, right: Right, access: Access) -> bool {
        if crosses(access) {
            self.grants_across(right, access)
        } else {
            self.grants_in_page(right, access)
        }
    }
}

impl Writable for Paged<'_> {
    fn store(&mut self, access: Access, value: u64) -> Result<(), MissingRight> {
        if crosses(access) {
            self.store_across(access, value)
        } else {
            self.store_in_page(access, value)
        }
    }
}
