// A memory of which ranges take rights away.
ghost use Rattle.std.specs.Prelude.{◌≡◌};
ghost use Rattle.protection.specs.Taking.{protected, protected-bounded as protected_bounded};

use crate::ranges::Ranges;
use memory::{Access, MissingRight, Readable, Right, Writable};

// The bytes are those of the memory; a right is there if the memory has it and no range takes it away.
#[derive(Drop)]
pub struct Protection<M> {
    memory: M,
    ranges: Ranges,
}

impl<M: Readable> Protection<M> {
    // The memory under these ranges, which stay as they are.
    pub fn new(memory: M, ranges: Ranges) -> Protection<M>
        ensures { protected result.ranges (M.meaning result.memory) ≡ protected ranges (M.meaning memory) }
    {
        Protection { memory, ranges }
    }
}

impl<M: Readable> Readable for Protection<M> {
    ghost meaning = { λ s. protected s.ranges (M.Readable.meaning s.memory) };

    ghost bounded = { λ s. protected_bounded s.ranges (M.Readable.meaning s.memory) (M.Readable.bounded s.memory) };

    #[tactic(auto, using(crate::proofs::Under::loaded_protected))]
    fn load(&self, access: Access) -> Result<u64, MissingRight> {
        if !self.ranges.allow(Right::Read, access) {
            return Err(MissingRight {
                address: access.address,
            });
        }
        self.memory.load(access)
    }

    #[tactic(auto, using(crate::proofs::Allowing::granted_protected))]
    fn grants(&self, right: Right, access: Access) -> bool {
        self.ranges.allow(right, access) && self.memory.grants(right, access)
    }
}

impl<M: Writable> Writable for Protection<M> {
    #[tactic(auto, using(crate::proofs::Under::store_answer_protected, crate::proofs::Under::stored_protected))]
    fn store(&mut self, access: Access, value: u64) -> Result<(), MissingRight> {
        if !self.ranges.allow(Right::Write, access) {
            return Err(MissingRight {
                address: access.address,
            });
        }
        self.memory.store(access, value)
    }
}
