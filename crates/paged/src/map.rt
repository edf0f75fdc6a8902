// The mapping of pages, which ends before the memory is used.
ghost use Rattle.std.specs.Prelude.{◌≡◌, ◌≤◌, [], length};
ghost use Rattle.paged.specs.Mapping.{map_answer, pages_after};
ghost use Rattle.paged.specs.Pages.{Separate};

use crate::page::Page;
use crate::table::PageTable;
use memory::{Refusal, Rights};

// Pages that are being mapped over `room` bytes.
#[derive(Drop)]
pub struct PageMap {
    table: PageTable,
    room: usize,
}

impl PageMap {
    // No page is mapped yet, and there are `room` bytes for pages.
    pub fn new(room: usize) -> PageMap
        ensures pages { result.table ≡ [] }
        ensures room { result.room ≡ room }
    {
        PageMap {
            table: PageTable::new(),
            room,
        }
    }

    // One page more, over the next 4,096 bytes.
    pub fn map(&mut self, base: u64, rights: Rights) -> Result<(), Refusal>
        ensures answer { result ≡ map_answer self.old.table self.old.room base }
        ensures pages { self.new.table ≡ pages_after result self.old.table (record { base = base; rights = rights }) }
        ensures room { self.new.room ≡ self.old.room }
        ensures few { length self.new.table ≤ 64 }
        ensures separate { Separate self.new.table }
    {
        let room = self.room;
        let answer = self.table.add(Page { base, rights }, room);
        self.table.kept();
        answer
    }

    // The table of these pages, to which none can be added.
    pub fn finish(self) -> PageTable
        ensures pages { result ≡ self.table }
        ensures few { length result ≤ 64 }
        ensures separate { Separate result }
    {
        let PageMap { table, room: _ } = self;
        table
    }
}
