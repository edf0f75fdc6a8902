// A bank: cells of one kind, in memory of the caller.
ghost use Rattle.std.specs.Prelude.{◌≡◌, ℕ, ◌+◌, ◌<◌, true, ◌&&◌, is_some, if◌then◌else◌, nat_le, nat_lt, slice_index_or};
ghost use Rattle.registers.specs.Banks.{cell_at, cell_of, filled, place_for, read as read_register, written, wrote};

use crate::kind::{BlankKind, Kind};
use crate::window::Window;

// The cells are lent to each call, to read or to write, and a frame makes the window for each call: no struct holds both.
impl Window {
    // The place in the window of its register.
    fn place(self, register: u16) -> u16
        requires { register < self.size }
        ensures value { result ≡ place_for self register }
        ensures within { result < self.size }
    {
        if register < self.rotating {
            (register + self.rename) % self.rotating
        } else {
            register
        }
    }

    // The cell of a register, if there is one. No other register names it.
    pub fn name<K: Kind>(self, register: u16) -> Option<u16>
        ensures value { result ≡ cell_of K.FIXED self register }
        ensures alone { (k : ℕ) → is_some result ≡ true → cell_of K.FIXED self k ≡ result → k ≡ register }
    {
        let fixed = K::FIXED;
        if register < fixed {
            Some(register)
        } else if register - fixed < self.size {
            Some(fixed + self.base + self.place(register - fixed))
        } else {
            None
        }
    }

    // What a register reads as.
    pub fn read<K: BlankKind>(self, cells: &[K::Cell], register: u16) -> K::Cell
        ensures { result ≡ read_register K.BlankKind.first K.BlankKind.blank K.FIXED self cells.now register }
    {
        if register == 0 {
            return K::register_zero();
        }
        cell::<K>(cells, self.name::<K>(register))
    }

    // Writes a register. A write of register 0, or of one that is not there, is dropped.
    pub fn write<K: Kind>(self, cells: &mut [K::Cell], register: u16, value: K::Cell)
        ensures { cells.new ≡ wrote K.FIXED self cells.old register value }
    {
        if register == 0 {
            return;
        }
        set_cell::<K>(cells, self.name::<K>(register), value);
    }
}

// What a cell holds; a blank where there is none.
pub fn cell<K: BlankKind>(cells: &[K::Cell], cell: Option<u16>) -> K::Cell
    ensures { result ≡ cell_at K.BlankKind.blank cells.now cell }
{
    cell.and_then(|i| cells.get(i as usize).copied())
        .unwrap_or(K::blank_cell())
}

// Writes a cell; where there is none, nothing changes.
pub fn set_cell<K: Kind>(cells: &mut [K::Cell], cell: Option<u16>, value: K::Cell)
    ensures { cells.new ≡ written cells.old cell value }
{
    let Some(i) = cell else {
        return;
    };
    let at = i as usize;
    // By index: what `get_mut` ensures says nothing of the slice afterwards.
    if at < cells.len() {
        cells[at] = value;
    }
}

// Blanks the cells from `from` on.
pub fn blank_cells<K: BlankKind>(cells: &mut [K::Cell], from: u16, count: u16)
    ensures whole { cells.new ≡ filled from count K.BlankKind.blank cells.old }
    ensures each { (k : ℕ) → slice_index_or cells.new k K.BlankKind.blank ≡ (if nat_le from k && nat_lt k (from + count) then K.BlankKind.blank else slice_index_or cells.old k K.BlankKind.blank) }
{
    let end = (from as usize + count as usize).min(cells.len());
    let start = (from as usize).min(end);
    // A loop, since `fill` asks that a clone of the cell cannot fail.
    for cell in &mut cells[start..end] {
        *cell = K::blank_cell();
    }
}
