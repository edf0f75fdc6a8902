// A bundle, as it is fetched from memory, and its parts.
ghost use Rattle.std.specs.Prelude.{◌≡◌, ◌^◌, ◌<◌};
ghost use Rattle.bundle.specs.Fetching.{fetched};
ghost use Rattle.bundle.specs.Fields.{bits, slot};
ghost use Rattle.integer.specs.Words.{field};

use memory::{Access, MissingRight, Readable, Size};

// A bundle as it stands in memory: two 64-bit words, the low one first.
#[derive(Clone, Copy, PartialEq, Eq, Debug)]
pub struct Bundle {
    pub low: u64,
    pub high: u64,
}

impl Bundle {
    // The 16 bytes at the address, if each of them may be read.
    #[tactic(auto, using(crate::proofs::Fetches::granted_both))]
    pub fn fetch<M: Readable>(memory: &M, address: u64) -> Result<Bundle, MissingRight>
        ensures { result ≡ fetched (M.meaning memory.now) address }
    {
        let missing = MissingRight { address };
        let size = Size::Eight;
        let low = memory.load(Access { address, size })?;
        let address = address.checked_add(8).ok_or(missing)?;
        let high = memory.load(Access { address, size }).map_err(|_| missing)?;
        Ok(Bundle { low, high })
    }

    // The template's number and the three slots: a tuple, since every caller takes all four apart at once.
    pub fn split(self) -> (u8, u64, u64, u64)
        ensures template { result.0 ≡ field (bits self) 0 5 }
        ensures slot0 { result.1 ≡ slot (bits self) 0 }
        ensures slot1 { result.2 ≡ slot (bits self) 1 }
        ensures slot2 { result.3 ≡ slot (bits self) 2 }
        ensures fits { (result.0 < 2 ^ 5) × (result.1 < 2 ^ 41) × (result.2 < 2 ^ 41) × (result.3 < 2 ^ 41) }
    {
        let template = (self.low % 0x20) as u8;
        let slot0 = (self.low >> 5) % 0x200_0000_0000;
        let slot1 = (self.low >> 46) + (self.high % 0x80_0000) * 0x4_0000;
        let slot2 = self.high >> 23;
        (template, slot0, slot1, slot2)
    }
}
