// Memories of every kind side by side: each case of the input is tried on all of them, through the interfaces alone, and the
// answers are printed on one line.
#![tactic(auto)]

use memory::{Access, Flat, Image, Readable, Refusal, Right, Rights, Size, Writable};
use paged::{PageMap, PageTable, Paged};
use protection::{Protection, Range, Ranges};
use std::alloc::{AllocError, Global};
use std::fmt::Write as FormatWrite;
use std::io::{Read, Write};
use std::{fmt, io};
use thiserror::Error;

// How many bytes of the input are a case.
const CASE: usize = 18;

#[derive(Clone, Copy)]
enum Action {
    Load,
    Store(u64),
    Ask(Right),
}

// An access, and what is tried there.
#[derive(Clone, Copy)]
struct Case {
    action: Action,
    access: Access,
}

impl Case {
    // The case that these bytes are: the action, the size, the address and the value to store. The numbers are the input's own.
    fn new(bytes: &[u8]) -> Option<Case> {
        let ([action, size], words) = bytes.split_first_chunk::<2>()?;
        let (address, words) = words.split_first_chunk::<8>()?;
        let value = words.first_chunk::<8>()?;
        let action = match *action {
            0 => Action::Load,
            1 => Action::Store(u64::from_le_bytes(*value)),
            2 => Action::Ask(Right::Read),
            3 => Action::Ask(Right::Write),
            _ => Action::Ask(Right::Speculative),
        };
        let size = match *size {
            0 => Size::One,
            1 => Size::Two,
            2 => Size::Four,
            _ => Size::Eight,
        };
        let address = u64::from_le_bytes(*address);
        Some(Case {
            action,
            access: Access { address, size },
        })
    }
}

#[derive(Clone, Copy)]
enum Answer {
    Word(u64),
    Stored,
    Missing(u64),
    Granted(bool),
    NotTried,
}

impl fmt::Display for Answer {
    fn fmt<W: fmt::Write>(&self, f: &mut fmt::Formatter<W>) -> fmt::Result {
        match *self {
            Answer::Word(word) => write!(f, "{word:016x}"),
            Answer::Stored => write!(f, "stored"),
            Answer::Missing(address) => write!(f, "missing {address:016x}"),
            Answer::Granted(true) => write!(f, "yes"),
            Answer::Granted(false) => write!(f, "no"),
            Answer::NotTried => write!(f, "-"),
        }
    }
}

fn reading<M: Readable>(memory: &M, case: Case) -> Answer {
    match case.action {
        Action::Load => match memory.load(case.access) {
            Ok(word) => Answer::Word(word),
            Err(missing) => Answer::Missing(missing.address),
        },
        Action::Store(_) => Answer::NotTried,
        Action::Ask(right) => Answer::Granted(memory.grants(right, case.access)),
    }
}

fn writing<M: Writable>(memory: &mut M, case: Case) -> Answer {
    match case.action {
        Action::Store(value) => match memory.store(case.access, value) {
            Ok(()) => Answer::Stored,
            Err(missing) => Answer::Missing(missing.address),
        },
        _ => reading(memory, case),
    }
}

fn rights(read: bool, write: bool, speculative: bool) -> Rights {
    Rights {
        read,
        write,
        speculative,
    }
}

// Six pages; one is mapped at the top, and two have numbers that are equal modulo 64.
fn pages() -> Result<PageTable, Refusal> {
    let mut map = PageMap::new(6 * 4096);
    map.map(0x5000, rights(true, true, true))?;
    map.map(0x4000, rights(true, true, false))?;
    map.map(0xFFFF_FFFF_FFFF_F000, rights(true, true, true))?;
    map.map(0x7000, rights(true, false, false))?;
    map.map(0x45000, rights(true, true, false))?;
    map.map(0x6000, rights(false, true, true))?;
    Ok(map.finish())
}

fn ranges() -> Result<Ranges, Refusal> {
    let mut ranges = Ranges::new();
    let taken = [
        (0x1010, 0x101F, rights(false, true, false)),
        (0x1018, 0x1027, rights(true, false, false)),
        (0x2000, 0x1000, rights(true, true, true)),
        (0x4FFC, 0x5003, rights(false, false, true)),
        (
            0xFFFF_FFFF_FFFF_FFF8,
            0xFFFF_FFFF_FFFF_FFFF,
            rights(false, true, false),
        ),
        (0x5FF8, 0x5FF8, rights(true, true, false)),
    ];
    for (first, last, taken) in taken {
        ranges.add(Range { first, last, taken })?;
    }
    Ok(ranges)
}

// The bytes that a memory has at first.
fn data(heap: Global, count: usize) -> Result<Vec<u8>, AllocError> {
    (0..count).map(|i| (i % 256 * 7 % 256) as u8).collect(heap)
}

// What can go wrong: the set-up of a memory, its input or the machine that it runs on.
#[derive(Debug, Drop, Error)]
enum Trouble {
    #[error("the set-up of a memory is refused: {0:?}")]
    Refused(#[from] Refusal),
    #[error("the input ends within a case")]
    CutInput,
    #[error("{0:?}")]
    Other(anyhow::Error),
}

impl From<AllocError> for Trouble {
    fn from(error: AllocError) -> Trouble {
        Trouble::Other(error.into())
    }
}

impl From<fmt::Error> for Trouble {
    fn from(error: fmt::Error) -> Trouble {
        Trouble::Other(error.into())
    }
}

impl From<io::Error> for Trouble {
    fn from(error: io::Error) -> Trouble {
        Trouble::Other(error.into())
    }
}

// The answers of all memories to each case of the input, a line for each.
fn answers(heap: Global, input: &[u8]) -> Result<String, Trouble> {
    let table = pages()?;
    let mut outer = Ranges::new();
    outer.add(Range {
        first: 0x4000,
        last: 0x4FFF,
        taken: rights(false, true, false),
    })?;
    let small = data(heap, 64)?;
    let mut small1 = data(heap, 64)?;
    let mut small2 = data(heap, 64)?;
    let mut small3 = data(heap, 64)?;
    let mut large1 = data(heap, 6 * 4096)?;
    let mut large2 = data(heap, 6 * 4096)?;
    let mut large3 = data(heap, 6 * 4096)?;
    let image = Image::new(0x1000, &small);
    let mut flat = Flat::new(0x1000, &mut small1);
    let mut top = Flat::new(0xFFFF_FFFF_FFFF_FFF0, &mut small2);
    let mut paged = Paged::new(&table, &mut large1);
    let mut over_flat = Protection::new(Flat::new(0x1000, &mut small3), ranges()?);
    let mut over_paged = Protection::new(Paged::new(&table, &mut large2), ranges()?);
    let mut twice = Protection::new(
        Protection::new(Paged::new(&table, &mut large3), ranges()?),
        outer,
    );
    let mut text = String::new(heap);
    for bytes in input.chunks_exact(CASE) {
        let case = Case::new(bytes).ok_or(Trouble::CutInput)?;
        // Each memory by its name: they hold references of several lifetimes, which an array of `&mut dyn Writable` can't.
        let a = reading(&image, case);
        let b = writing(&mut flat, case);
        let c = writing(&mut top, case);
        let d = writing(&mut paged, case);
        let e = writing(&mut over_flat, case);
        let f = writing(&mut over_paged, case);
        let g = writing(&mut twice, case);
        writeln!(text, "{a} {b} {c} {d} {e} {f} {g}")?;
    }
    Ok(text)
}

fn main(rt: HostRuntime) -> Result<(), Trouble> {
    let heap = rt.alloc();
    let mut input = Vec::new(heap);
    rt.stdin().read_to_end(&mut input)?;
    let text = answers(heap, &input)?;
    rt.stdout().write_all(text.as_bytes())?;
    Ok(())
}
