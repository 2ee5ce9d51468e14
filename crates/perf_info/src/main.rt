// Tells what a recording holds, or where it is refused, as the library `info` prints it.
#![tactic(auto)]

use image::section::LONGEST;
use info::print_image;
use std::io;
use std::io::Read;

fn main(rt: HostRuntime) -> io::Result<()> {
    let mut image = Vec::new(rt.alloc());
    // one byte more, which tells that the input is longer than an image
    rt.stdin().take(LONGEST as u64 + 1).read_to_end(&mut image)?;
    print_image(&rt, &image)
}
