// Writes the slots of the image on standard input as assembler text: the first 65,536 bytes of it, at address 0.
#![tactic(auto)]

use disassembly::Disassembly;
use std::io;
use std::io::{Read, Write};

fn main(rt: HostRuntime) -> io::Result<()> {
    let heap = rt.alloc();
    let mut image = Vec::with_capacity(heap, 65536)?;
    rt.stdin().take(65536).read_to_end(&mut image)?;
    let text = format!(in heap; "{}", Disassembly { image: &image })?;
    rt.stdout().write_all(text.as_bytes())
}
