// Loads or stores at places all over 256 KiB of a memory, for bench/memory to time: memory_bench KIND ACTION ROUNDS, where KIND is
// flat, paged or protected and ACTION is load or store. It prints a sum of the words that were loaded or stored.
#![tactic(auto)]

use anyhow::anyhow;
use memory::{Access, Flat, Readable, Refusal, Rights, Size, Writable};
use paged::{PageMap, PageTable, Paged};
use protection::{Protection, Range, Ranges};
use std::alloc::Global;
use std::env;

const WORDS: u64 = 32768;

const ALL: Rights = Rights {
    read: true,
    write: true,
    speculative: true,
};

// The memory that is timed: a KIND other than flat and paged is protected.
#[derive(Clone, Copy)]
enum Kind {
    Flat,
    Paged,
    Protected,
}

impl From<&str> for Kind {
    fn from(text: &str) -> Kind {
        match text {
            "flat" => Kind::Flat,
            "paged" => Kind::Paged,
            _ => Kind::Protected,
        }
    }
}

// What is done to it: an ACTION other than load is a store.
#[derive(Clone, Copy)]
enum Action {
    Load,
    Store,
}

impl From<&str> for Action {
    fn from(text: &str) -> Action {
        match text {
            "load" => Action::Load,
            _ => Action::Store,
        }
    }
}

// The next of a fixed sequence of numbers; its upper bits pick the word.
fn next(state: u64) -> u64 {
    state
        .wrapping_mul(6364136223846793005)
        .wrapping_add(1442695040888963407)
}

// The word that a number of the sequence picks.
fn word(state: u64) -> Access {
    Access {
        address: (state >> 32) % WORDS * 8,
        size: Size::Eight,
    }
}

// The sum of what the step gives in each round, from the number of the sequence that the round has.
fn sum<F: FnMut(u64) -> Option<u64>>(rounds: u64, mut step: F) -> u64
    requires { F.IsAlwaysCallable step }
{
    let mut state = 1;
    let mut sum = 0u64;
    for _ in 0..rounds {
        state = next(state);
        if let Some(word) = step(state) {
            sum = sum.wrapping_add(word);
        }
    }
    sum
}

fn work<M: Writable>(memory: &mut M, action: Action, rounds: u64) -> u64 {
    match action {
        Action::Load => sum(rounds, |state| memory.load(word(state)).ok()),
        Action::Store => sum(rounds, |state| {
            memory.store(word(state), state).is_ok().then_some(state)
        }),
    }
}

fn pages() -> Result<PageTable, Refusal> {
    let mut map = PageMap::new(262144);
    for base in (0..262144).step_by(4096) {
        map.map(base, ALL)?;
    }
    Ok(map.finish())
}

// One range that holds no address of the accesses.
fn ranges() -> Result<Ranges, Refusal> {
    let mut ranges = Ranges::new();
    ranges.add(Range {
        first: 0x100000,
        last: 0x1FFFFF,
        taken: ALL,
    })?;
    Ok(ranges)
}

fn run(heap: Global, kind: Kind, action: Action, rounds: u64) -> anyhow::Result<u64> {
    let mut bytes = vec![in heap; 1u8; 262144]?;
    match kind {
        Kind::Flat => Ok(work(&mut Flat::new(0, &mut bytes), action, rounds)),
        Kind::Paged => {
            let table = pages().map_err(|_| anyhow!("a page was refused"))?;
            Ok(work(&mut Paged::new(&table, &mut bytes), action, rounds))
        }
        Kind::Protected => {
            let ranges = ranges().map_err(|_| anyhow!("a range was refused"))?;
            let mut memory = Protection::new(Flat::new(0, &mut bytes), ranges);
            Ok(work(&mut memory, action, rounds))
        }
    }
}

fn main(rt: HostRuntime) -> anyhow::Result<()> {
    let mut words = env::args(&rt)?.skip(1);
    let (Some(kind), Some(action), Some(rounds)) = (words.next(), words.next(), words.next()) else {
        return Err(anyhow!("usage: memory_bench KIND ACTION ROUNDS"));
    };
    let sum = run(
        rt.alloc(),
        Kind::from(kind.as_str()),
        Action::from(action.as_str()),
        rounds.as_str().parse::<u64>()?,
    )?;
    println!(rt; "{sum:016x}")?;
    Ok(())
}
