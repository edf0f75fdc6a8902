// A table that keeps nothing.
ghost use Rattle.std.specs.Prelude.{[]};
ghost use Rattle.alat.specs.Kinds.{keeps_nothing, keeps_nothing_lawful};

use crate::entry::Entry;
use crate::table::Alat;
use memory::Access;

#[derive(Drop)]
pub struct NoEntries;

impl Alat for NoEntries {
    ghost entries = { λ _. [] };

    ghost rule = { keeps_nothing };

    ghost lawful = { keeps_nothing_lawful };

    ghost unique = { λ _. tt };

    fn new() -> NoEntries {
        NoEntries
    }

    fn enter(&mut self, _load: Entry) {}

    fn store(&mut self, _access: Access) {}

    fn remove(&mut self, _cell: u16) {}

    fn clear(&mut self) {}

    fn find(&self, _cell: u16) -> Option<Entry> {
        None
    }
}
