// Logic, bit by bit. Each function is one of the library's on whole words, and what it makes of each bit is said besides.
ghost use Rattle.std.specs.Prelude.{◌≡◌, ℕ, ◌+◌, ◌-◌, ◌%◌, ◌^◌, ◌<◌, min, max, bit_and, bit_or, bit_xor};
ghost use Rattle.integer.specs.Words.{bit};

#[tactic(auto, using(std::proofs::lemmas::Nat::Bits::bit_at_and))]
pub fn and(a: u64, b: u64) -> u64
    ensures whole { result ≡ bit_and a b }
    ensures bits { (n : ℕ) → bit n result ≡ min (bit n a) (bit n b) }
{
    a & b
}

// The first source and the complement of the second.
pub fn andcm(a: u64, b: u64) -> u64
    ensures whole { result ≡ bit_and a (2 ^ 64 - 1 - b) }
    ensures bits { (n : ℕ) → n < 64 → bit n result ≡ min (bit n a) (1 - bit n b) }
{
    a & !b
}

#[tactic(auto, using(std::proofs::lemmas::Nat::Bits::bit_at_or))]
pub fn or(a: u64, b: u64) -> u64
    ensures whole { result ≡ bit_or a b }
    ensures bits { (n : ℕ) → bit n result ≡ max (bit n a) (bit n b) }
{
    a | b
}

#[tactic(auto, using(std::proofs::lemmas::Nat::Bits::bit_at_xor))]
pub fn xor(a: u64, b: u64) -> u64
    ensures whole { result ≡ bit_xor a b }
    ensures bits { (n : ℕ) → bit n result ≡ (bit n a + bit n b) % 2 }
{
    a ^ b
}
