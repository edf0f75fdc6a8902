// A range of addresses, with the rights that it takes away.
ghost use Rattle.std.specs.Prelude.{◌≡◌, [], ◌∷◌};
ghost use Rattle.memory.specs.Access.{bytes_of};
ghost use Rattle.protection.specs.Taking.{allowed};

use memory::{Access, Right, Rights};

// The addresses from `first` to `last`, both included, lose the rights that are set in `taken`.
// A range with `first` above `last` has no address.
#[derive(Clone, Copy, PartialEq, Eq, Debug, Default)]
pub struct Range {
    pub first: u64,
    pub last: u64,
    pub taken: Rights,
}

impl Range {
    // Whether it takes the right away from no byte of the access.
    #[tactic(auto, using(crate::proofs::Allowing::allowed_one))]
    pub(crate) fn allows(self, right: Right, access: Access) -> bool
        ensures { result ≡ allowed (self ∷ []) right access.address (bytes_of access.size) }
    {
        let count = access.size.bytes();
        !self.taken.has(right)
            || self.last < self.first
            || self.last < access.address
            || count <= self.first.saturating_sub(access.address)
    }
}
