// Lists the bundles of the image on standard input: the first 65,536 bytes of it, at address 0.
#![tactic(auto)]

use listing::list_image;
use std::io;
use std::io::{Read, Write};

fn main(rt: HostRuntime) -> io::Result<()> {
    let heap = rt.alloc();
    let mut image = Vec::with_capacity(heap, 65536)?;
    rt.stdin().take(65536).read_to_end(&mut image)?;
    let text = list_image(heap, &image)?;
    rt.stdout().write_all(&text)
}
