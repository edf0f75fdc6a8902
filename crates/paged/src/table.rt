// The table of pages.
ghost use Rattle.std.specs.Prelude.{◌≡◌, ◌-◌, ◌%◌, ◌<◌, ◌≤◌, [], length, IfSome, slice_index_or};
ghost use Rattle.paged.specs.Mapping.{map_answer, pages_after};
ghost use Rattle.paged.specs.Pages.{Separate, index_of, no_page, offset_with, place_for};

use crate::page::{Hint, Page, Place};
use arrayvec::ArrayVec;
use memory::{Refusal, Right, Rights};
use std::marker::Model;

// A hint that is not set: no page begins at 1. With hints of type Option<Hint> a store takes about a tenth longer.
const NO_HINT: Hint = Hint {
    base: 1,
    place: Place {
        offset: 0,
        rights: Rights {
            read: false,
            write: false,
            speculative: false,
        },
    },
};

// The pages in the order in which they were mapped. Contracts see their list.
#[derive(Drop)]
pub struct PageTable {
    pages: ArrayVec<Page, 64>,
    // The page to try first, by `hint_index`, with its place and its rights, so that one look finds them. An array, since a map would need
    // a heap.
    hints: [Hint; 64],
}

impl Model for PageTable {
    ghost use Rattle.std.specs.Prelude.{List};
    ghost use Rattle.paged.specs.declared.page.Page.{Page};
    ghost use Rattle.paged.specs.Hints.{Kept};

    ghost Value = { List Page };

    ghost view = { λ t. t.pages.items };

    ghost invariant = { λ t. Kept t.pages.items t.hints };
}

// The page's number modulo 64.
fn hint_index(base: u64) -> usize
    ensures { result < 64 }
{
    (base / 4096 % 64) as usize
}

impl PageTable {
    // A table with no page.
    pub(crate) fn new() -> PageTable
        ensures { result ≡ [] }
    {
        PageTable {
            pages: ArrayVec::new(),
            hints: [NO_HINT; 64],
        }
    }

    // What every table keeps: it has 64 pages at most, and they lie apart.
    pub(crate) fn kept(&self)
        ensures few { length self.now ≤ 64 }
        ensures separate { Separate self.now }
    {
        // To read a field is to know the invariant.
        let _count = self.pages.len();
    }

    // One page more, where `room` bytes are there for all pages.
    pub(crate) fn add(&mut self, page: Page, room: usize) -> Result<(), Refusal>
        ensures answer { result ≡ map_answer self.old room page.base }
        ensures pages { self.new ≡ pages_after result self.old page }
    {
        let count = self.pages.len();
        if count == 64 || room < 4096 * count + 4096 {
            return Err(Refusal::NoRoom);
        }
        if page.base % 4096 != 0 || self.place(page.base).is_some() {
            return Err(Refusal::BadBase);
        }
        self.pages.push(page);
        let place = Place {
            offset: 4096 * count as u64,
            rights: page.rights,
        };
        self.hints[hint_index(page.base)] = Hint {
            base: page.base,
            place,
        };
        Ok(())
    }

    // The place in the list of the page that holds the address.
    fn find(&self, address: u64) -> Option<usize>
        ensures place { result ≡ index_of self.now address }
        ensures holds { IfSome result (λ i. (i < length self.now) × ((slice_index_or self.now i no_page).base ≡ address - address % 4096)) }
    {
        let base = address - address % 4096;
        self.pages.iter().position(|page| page.base == base)
    }

    // Where the address lies.
    pub(crate) fn place(&self, address: u64) -> Option<Place>
        ensures place { result ≡ place_for self.now address }
        ensures separate { Separate self.now }
    {
        let offset = address % 4096;
        let hint = self.hints[hint_index(address - offset)];
        if hint.base == address - offset {
            return Some(Place {
                offset: hint.place.offset + offset,
                rights: hint.place.rights,
            });
        }
        let i = self.find(address)?;
        let page = self.pages[i];
        Some(Place {
            offset: 4096 * i as u64 + (address - page.base),
            rights: page.rights,
        })
    }

    // Where in the caller's bytes the address lies, if its page has the right.
    pub(crate) fn locate(&self, address: u64, right: Right) -> Option<u64>
        ensures place { result ≡ offset_with right (place_for self.now address) }
        ensures separate { Separate self.now }
    {
        let place = self.place(address)?;
        place.rights.has(right).then_some(place.offset)
    }
}
