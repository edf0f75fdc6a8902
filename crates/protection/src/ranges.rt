// Ranges that are collected, up to 16, and what they allow together.
ghost use Rattle.std.specs.Prelude.{◌≡◌, []};
ghost use Rattle.memory.specs.Access.{bytes_of};
ghost use Rattle.protection.specs.Adding.{add_answer, added};
ghost use Rattle.protection.specs.Taking.{allowed};

use crate::range::Range;
use arrayvec::ArrayVec;
use memory::{Access, Refusal, Right};
use std::marker::Model;

// The ranges, in the order in which they were added. Contracts see their list.
#[derive(Drop)]
pub struct Ranges {
    items: ArrayVec<Range, 16>,
}

impl Model for Ranges {
    ghost use Rattle.std.specs.Prelude.{List};
    ghost use Rattle.protection.specs.declared.range.Range.{Range};

    ghost Value = { List Range };

    ghost view = { λ s. s.items.items };
}

impl Ranges {
    // No ranges.
    pub fn new() -> Ranges
        ensures { result ≡ [] }
    {
        Ranges {
            items: ArrayVec::new(),
        }
    }

    // One more range, if there are fewer than 16.
    pub fn add(&mut self, range: Range) -> Result<(), Refusal>
        ensures answer { result ≡ add_answer self.old }
        ensures after { self.new ≡ added self.old range }
    {
        self.items.try_push(range).map_err(|_| Refusal::NoRoom)
    }

    // Whether no range takes the right away from any byte of the access.
    pub(crate) fn allow(&self, right: Right, access: Access) -> bool
        ensures { result ≡ allowed self.now right access.address (bytes_of access.size) }
    {
        self.items.iter().all(|range| range.allows(right, access))
    }
}
