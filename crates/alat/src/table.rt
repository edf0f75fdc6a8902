// The interface of a table of advanced loads.
ghost use Rattle.std.specs.Prelude.{◌≡◌, List, []};
ghost use Rattle.alat.specs.declared.entry.Entry.{Entry};
ghost use Rattle.alat.specs.Rule.{Rule, Lawful, Enter, Store, Remove, Clear};
ghost use Rattle.alat.specs.Table.{OneEach, held};

use crate::entry::Entry;
use memory::Access;

pub trait Alat: Sized {
    // The entries that are held.
    ghost entries: { Self → List Entry };

    // What a request leaves of the entries: each kind has its own rule.
    ghost rule: { Rule };

    // The rule keeps the bounds.
    ghost lawful: { Lawful rule };

    // There is at most one entry for a cell.
    ghost unique: { (table : Self) → OneEach (entries table) };

    // A table that holds nothing.
    fn new() -> Self
        ensures { entries result ≡ [] };

    // Remembers a load, in place of any other that filled the same cell.
    fn enter(&mut self, load: Entry)
        ensures { entries self.new ≡ rule (entries self.old) (Enter load) };

    // Forgets the loads of which this store may have changed a byte.
    fn store(&mut self, access: Access)
        ensures { entries self.new ≡ rule (entries self.old) (Store access) };

    // Forgets the load that filled the cell.
    fn remove(&mut self, cell: u16)
        ensures { entries self.new ≡ rule (entries self.old) (Remove cell) };

    // Forgets all loads.
    fn clear(&mut self)
        ensures { entries self.new ≡ rule (entries self.old) Clear };

    // The entry of the cell, if one is held.
    fn find(&self, cell: u16) -> Option<Entry>
        ensures { result ≡ held (entries self.now) cell };
}
