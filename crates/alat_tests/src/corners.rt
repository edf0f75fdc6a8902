// Tests at the corners of the kinds of ALAT.
use alat::{Alat, DirectMapped, Entry, FullyAssociative, NoEntries};
use memory::{Access, Size};
use std::process::Abort;

fn entry(cell: u16, address: u64) -> Entry {
    Entry {
        cell,
        access: Access {
            address,
            size: Size::Eight,
        },
    }
}

// Whether an 8-byte entry is held after a store.
fn held_after<T: Alat + Drop>(load: u64, address: u64, size: Size) -> bool {
    let mut table = T::new();
    table.enter(entry(5, load));
    table.store(Access { address, size });
    table.find(5).is_some()
}

// The address of the entry that is held for a cell.
fn address<T: Alat>(table: &T, cell: u16) -> Option<u64> {
    table
        .find(cell)
        .filter(|entry| entry.cell == cell)
        .map(|entry| entry.access.address)
}

fn stores_end_entries<T: Alat + Drop>(rt: &impl Abort) {
    assert!(rt; !held_after::<T>(0x1000, 0x1007, Size::One));
    assert!(rt; !held_after::<T>(0x1000, 0x1000, Size::One));
    assert!(rt; !held_after::<T>(0x1000, 0x0FFF, Size::Two));
    assert!(rt; !held_after::<T>(0x1000, 0x0FF9, Size::Eight));
    assert!(rt; !held_after::<T>(u64::MAX - 7, u64::MAX, Size::One));
    assert!(rt; !held_after::<T>(u64::MAX, u64::MAX - 7, Size::Eight));
}

fn other_stores_end_none<T: Alat + Drop>(rt: &impl Abort) {
    assert!(rt; held_after::<T>(0x1000, 0x1008, Size::Eight));
    assert!(rt; held_after::<T>(0x1000, 0x0FFF, Size::One));
    assert!(rt; held_after::<T>(0x1000, 0x0FF8, Size::Eight));
    assert!(rt; held_after::<T>(u64::MAX, 0, Size::Eight));
    assert!(rt; held_after::<T>(0, u64::MAX, Size::Eight));
}

#[test]
fn a_store_ends_what_it_touches(rt: HostRuntime) {
    stores_end_entries::<NoEntries>(&rt);
    stores_end_entries::<DirectMapped>(&rt);
    stores_end_entries::<FullyAssociative>(&rt);
}

#[test]
fn a_store_ends_nothing_else(rt: HostRuntime) {
    other_stores_end_none::<DirectMapped>(&rt);
    other_stores_end_none::<FullyAssociative>(&rt);
}

fn one_entry_for_a_cell<T: Alat + Drop>(rt: &impl Abort) {
    let mut table = T::new();
    table.enter(entry(4127, 0x1000));
    table.enter(entry(4127, 0x2000));
    assert_eq!(rt; address(&table, 4127), Some(0x2000));
    table.remove(4127);
    assert_eq!(rt; address(&table, 4127), None);
    table.enter(entry(0, 0x1000));
    table.clear();
    assert_eq!(rt; address(&table, 0), None);
}

#[test]
fn a_new_entry_replaces_the_old_one_of_its_cell(rt: HostRuntime) {
    one_entry_for_a_cell::<DirectMapped>(&rt);
    one_entry_for_a_cell::<FullyAssociative>(&rt);
}

#[test]
fn nothing_is_kept(rt: HostRuntime) {
    let mut table = NoEntries::new();
    table.enter(entry(5, 0x1000));
    assert_eq!(rt; address(&table, 5), None);
}

#[test]
fn cells_of_one_place_contend(rt: HostRuntime) {
    let mut table = DirectMapped::new();
    table.enter(entry(5, 0x1000));
    table.enter(entry(6, 0x2000));
    table.enter(entry(37, 0x3000));
    assert_eq!(rt; address(&table, 5), None);
    assert_eq!(rt; address(&table, 6), Some(0x2000));
    table.remove(5);
    assert_eq!(rt; address(&table, 37), Some(0x3000));
}

#[test]
fn the_oldest_of_sixteen_is_lost(rt: HostRuntime) {
    let mut table = FullyAssociative::new();
    for cell in 0..16 {
        table.enter(entry(cell, 0x1000));
    }
    // cell 0 is entered again, and cell 1 only asked for
    table.enter(entry(0, 0x2000));
    assert_eq!(rt; address(&table, 1), Some(0x1000));
    table.enter(entry(16, 0x3000));
    assert_eq!(rt; address(&table, 0), Some(0x2000));
    assert_eq!(rt; address(&table, 1), None);
    assert_eq!(rt; address(&table, 2), Some(0x1000));
    assert_eq!(rt; address(&table, 16), Some(0x3000));
}
