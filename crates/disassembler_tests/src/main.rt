// Writes a second image as assembler text: the sample program, and slots that hold no carried instruction. It is a program of its own,
// since each program is run on one input.
#![tactic(auto)]

use disassembly::Disassembly;
use std::io;
use std::io::{Read, Write};

fn main(rt: HostRuntime) -> io::Result<()> {
    let heap = rt.alloc();
    let mut image = Vec::with_capacity(heap, 65536)?;
    rt.stdin().read_to_end(&mut image)?;
    let text = format!(in heap; "{}", Disassembly { image: &image })?;
    rt.stdout().write_all(text.as_bytes())
}
