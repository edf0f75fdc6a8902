// An entry of the table of advanced loads.
ghost use Rattle.std.specs.Prelude.{◌≡◌, Decides};
ghost use Rattle.alat.specs.Table.{SharesByte, shares_a_byte};

use memory::Access;

// An advanced load that is remembered: the cell of the general bank that it filled, and the bytes that it read.
#[derive(Clone, Copy, PartialEq, Eq, Debug, Default)]
pub struct Entry {
    pub cell: u16,
    pub access: Access,
}

impl Entry {
    // Whether some byte is both of the entry and of this access.
    pub fn shares_byte(self, access: Access) -> bool
        ensures value { result ≡ shares_a_byte self access }
        ensures decides { Decides result (SharesByte self access) }
    {
        if self.access.address <= access.address {
            access.address - self.access.address < self.access.size.bytes()
        } else {
            self.access.address - access.address < access.size.bytes()
        }
    }
}
