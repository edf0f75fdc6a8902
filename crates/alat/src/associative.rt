// A table of up to 16 entries of any cells, which loses the oldest.
ghost use Rattle.std.specs.Prelude.{◌≡◌, ◌+◌, ◌<◌, ◌≤◌, ◌∷◌, ◌++◌, length, take, drop};
ghost use Rattle.alat.specs.Kinds.{fully_associative, fully_associative_lawful};
ghost use Rattle.alat.specs.Promises.{Entered, KeepsIfRoom, LosesOldest, KeepsApart, KeepsOthers};
ghost use Rattle.alat.specs.Rule.{Enter, Store, Remove};
ghost use Rattle.alat.specs.Table.{OneEach, OneEach-prop};

use crate::entry::Entry;
use crate::table::Alat;
use arrayvec::ArrayVec;
use memory::Access;

const CAPACITY: usize = 16;

#[derive(Drop)]
pub struct FullyAssociative {
    // From the youngest to the oldest.
    entries: ArrayVec<Entry, CAPACITY>,
    // A contract sees the elements of an `ArrayVec`, and not its capacity.
    ghost within: { length entries.items ≤ 16 },
    ghost one_each: { OneEach entries.items } by { OneEach-prop entries.items },
}

// The load takes the place of the entry at `at` and goes to the front: only the entries before that one move on.
fn renew(entries: &mut [Entry], at: usize, load: Entry)
    requires { at < length entries.old }
    ensures { entries.new ≡ load ∷ take at entries.old ++ drop (at + 1) entries.old }
{
    entries[at] = load;
    entries[..=at].rotate_right(1);
}

// A method that has clauses of its own repeats the trait's, which it would lose.
impl Alat for FullyAssociative {
    ghost entries = { λ s. s.entries.items };

    ghost rule = { fully_associative };

    ghost lawful = { fully_associative_lawful };

    ghost unique = { λ s. s.one_each };

    fn new() -> FullyAssociative {
        FullyAssociative {
            entries: ArrayVec::new(),
        }
    }

    fn enter(&mut self, load: Entry)
        ensures after { self.new.entries.items ≡ fully_associative self.old.entries.items (Enter load) }
        ensures held { Entered load self.new.entries.items }
        ensures kept { KeepsIfRoom self.old.entries.items load self.new.entries.items }
        ensures lost { LosesOldest self.old.entries.items load self.new.entries.items }
    {
        let Some(at) = self
            .entries
            .iter()
            .position(|entry| entry.cell == load.cell)
        else {
            self.entries.truncate(CAPACITY - 1);
            self.entries.insert(0, load);
            return;
        };
        renew(&mut self.entries, at, load);
    }

    fn store(&mut self, access: Access)
        ensures after { self.new.entries.items ≡ fully_associative self.old.entries.items (Store access) }
        ensures kept { KeepsApart self.old.entries.items access self.new.entries.items }
    {
        self.entries.retain(|entry| !entry.shares_byte(access));
    }

    fn remove(&mut self, cell: u16)
        ensures after { self.new.entries.items ≡ fully_associative self.old.entries.items (Remove cell) }
        ensures kept { KeepsOthers self.old.entries.items cell self.new.entries.items }
    {
        self.entries.retain(|entry| entry.cell != cell);
    }

    fn clear(&mut self) {
        self.entries.clear();
    }

    fn find(&self, cell: u16) -> Option<Entry> {
        self.entries
            .iter()
            .find(|entry| entry.cell == cell)
            .copied()
    }
}
