// Drives the three kinds of ALAT through their interface alone, by the requests of standard input, and prints what they answer.
#![tactic(auto)]

#[cfg(test)]
mod corners;
mod requests;
mod tables;

use requests::Request;
use tables::Tables;

fn run(rt: &HostRuntime) -> anyhow::Result<()> {
    let mut tables = Tables::new();
    for line in rt.lines(rt.alloc()) {
        let line = line?;
        tables.ask(rt, line.parse::<Request>()?)?;
    }
    Ok(())
}

fn main(rt: HostRuntime) -> anyhow::Result<()> {
    run(&rt)
}
