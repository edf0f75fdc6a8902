// One table of each kind. The interface has `new`, so there is no `dyn Alat` to loop over.
use crate::requests::Request;
use alat::{Alat, DirectMapped, Entry, FullyAssociative, NoEntries};
use std::io;

// The count of cells of the general bank.
const CELLS: u16 = 4128;

#[derive(Drop)]
pub(crate) struct Tables {
    none: NoEntries,
    direct: DirectMapped,
    associative: FullyAssociative,
}

fn print_entry(rt: &HostRuntime, entry: Entry) -> io::Result<()> {
    let cell = entry.cell;
    let address = entry.access.address;
    let size = entry.access.size.bytes();
    print!(rt; " {cell}:{address}:{size}")
}

// Prints all that the table holds, by cell.
fn list<T: Alat>(rt: &HostRuntime, kind: &str, table: &T) -> io::Result<()> {
    print!(rt; "{kind}")?;
    for entry in (0..CELLS).filter_map(|cell| table.find(cell)) {
        print_entry(rt, entry)?;
    }
    println!(rt; "")
}

// Makes a request of a table, and prints what it answers.
fn ask<T: Alat>(rt: &HostRuntime, kind: &str, table: &mut T, request: Request) -> io::Result<()> {
    match request {
        Request::Enter(load) => table.enter(load),
        Request::Store(access) => table.store(access),
        Request::Remove(cell) => table.remove(cell),
        Request::Clear => table.clear(),
        Request::Find(cell) => match table.find(cell) {
            Some(entry) => print_entry(rt, entry)?,
            None => print!(rt; " none")?,
        },
        Request::List => list(rt, kind, table)?,
    }
    Ok(())
}

impl Tables {
    pub(crate) fn new() -> Tables {
        Tables {
            none: NoEntries::new(),
            direct: DirectMapped::new(),
            associative: FullyAssociative::new(),
        }
    }

    // Makes the same request of each table. What they hold for a cell is printed in one line.
    pub(crate) fn ask(&mut self, rt: &HostRuntime, request: Request) -> io::Result<()> {
        let finds = matches!(request, Request::Find(_));
        if finds {
            print!(rt; "find")?;
        }
        ask(rt, "none", &mut self.none, request)?;
        ask(rt, "direct", &mut self.direct, request)?;
        ask(rt, "associative", &mut self.associative, request)?;
        if finds {
            println!(rt; "")?;
        }
        Ok(())
    }
}
