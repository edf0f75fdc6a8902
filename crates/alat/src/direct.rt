// A table of 32 places, in which an entry stands in the place of its cell's number modulo 32.
ghost use Rattle.std.specs.Prelude.{◌≡◌, ◌<◌};
ghost use Rattle.alat.specs.Kinds.{place_for, direct_mapped, direct_mapped_lawful};
ghost use Rattle.alat.specs.Places.{listed, listed_unique, InPlace};
ghost use Rattle.alat.specs.Promises.{Entered, KeepsOtherPlaces, KeepsApart, KeepsOthers};
ghost use Rattle.alat.specs.Rule.{Enter, Store, Remove};

use crate::entry::Entry;
use crate::table::Alat;
use memory::Access;

const PLACES: usize = 32;

// The trait's `unique` follows from the ghost field, which the value of a model would not have.
#[derive(Drop)]
pub struct DirectMapped {
    // An array, since each cell has its place.
    places: [Option<Entry>; PLACES],
    ghost in_place: { InPlace places },
}

// The place of a cell's entry.
fn place_of(cell: u16) -> usize
    ensures value { result ≡ place_for cell }
    ensures bound { result < 32 }
{
    cell as usize % PLACES
}

// A method that has clauses of its own repeats the trait's, which it would lose.
impl Alat for DirectMapped {
    ghost entries = { λ s. listed s.places };

    ghost rule = { direct_mapped };

    ghost lawful = { direct_mapped_lawful };

    ghost unique = { λ s. listed_unique s.places s.in_place };

    fn new() -> DirectMapped {
        DirectMapped {
            places: [None; PLACES],
        }
    }

    fn enter(&mut self, load: Entry)
        ensures after { listed self.new.places ≡ direct_mapped (listed self.old.places) (Enter load) }
        ensures held { Entered load (listed self.new.places) }
        ensures kept { KeepsOtherPlaces (listed self.old.places) load (listed self.new.places) }
    {
        self.places[place_of(load.cell)] = Some(load);
    }

    fn store(&mut self, access: Access)
        ensures after { listed self.new.places ≡ direct_mapped (listed self.old.places) (Store access) }
        ensures kept { KeepsApart (listed self.old.places) access (listed self.new.places) }
    {
        for place in &mut self.places {
            *place = place.filter(|entry| !entry.shares_byte(access));
        }
    }

    fn remove(&mut self, cell: u16)
        ensures after { listed self.new.places ≡ direct_mapped (listed self.old.places) (Remove cell) }
        ensures kept { KeepsOthers (listed self.old.places) cell (listed self.new.places) }
    {
        let place = &mut self.places[place_of(cell)];
        *place = place.filter(|entry| entry.cell != cell);
    }

    fn clear(&mut self) {
        *self = DirectMapped::new();
    }

    fn find(&self, cell: u16) -> Option<Entry> {
        self.places[place_of(cell)].filter(|entry| entry.cell == cell)
    }
}
