// The predicates as one word, by cells: bit k is cell k, whatever the rename base.
ghost use Rattle.std.specs.Prelude.{◌≡◌, ℕ, ◌^◌, ◌<◌, false, ◌&&◌, length, if◌then◌else◌, ◌==◌, nat_lt, slice_index_or};
ghost use Rattle.integer.specs.Words.{bit};
ghost use Rattle.registers.specs.Predicates.{masked_from, predicate_in, word_below};

// The predicate of a cell. That of cell 0 is true, and where there is no cell it is false.
fn predicate_at(cells: &[bool], at: usize) -> bool
    ensures { result ≡ predicate_in cells.now at }
{
    at == 0 || cells.get(at).copied().unwrap_or(false)
}

// What a predicate adds to the word at this bit.
fn weight(predicate: bool, at: usize) -> u64
    requires { at < 64 }
    ensures { result ≡ (if predicate then 2 ^ at else 0) }
{
    u64::from(predicate) << at
}

// The predicates as a word.
#[tactic(auto, unfolding(crate::specs::Predicates::word_below))]
pub fn predicate_word(cells: &[bool]) -> u64
    ensures { result ≡ word_below (predicate_in cells.now) 64 }
{
    let mut word = 0u64;
    // By bits, and not over the slice: a cell that it lacks is false, and cell 0 true. Of a chain with `sum` the proof did not close.
    for i in 0..64 {
        word += weight(predicate_at(cells, i), i);
    }
    word
}

// A cell after its bit of the word is written, if its bit of the mask is set. Cell 0 stays.
fn masked_cell(cell: bool, at: usize, word: u64, mask: u64) -> bool
    ensures { result ≡ (if nat_lt 0 at && nat_lt at 64 && bit at mask == 1 then (bit at word == 1) else cell) }
{
    if 0 < at && at < 64 && (mask >> at) % 2 == 1 {
        (word >> at) % 2 == 1
    } else {
        cell
    }
}

// Writes the predicates of the mask from a word. Predicate 0 stays.
pub fn set_predicate_word(cells: &mut [bool], word: u64, mask: u64)
    ensures whole { cells.new ≡ masked_from word mask 63 cells.old }
    ensures each { (k : ℕ) → k < length cells.old → slice_index_or cells.new k false ≡ (if nat_lt 0 k && nat_lt k 64 && bit k mask == 1 then (bit k word == 1) else slice_index_or cells.old k false) }
{
    // The cells past the 64 bits of the word stay, and are not gone through.
    let end = cells.len().min(64);
    for (i, cell) in cells[..end].iter_mut().enumerate() {
        *cell = masked_cell(*cell, i, word, mask);
    }
}
