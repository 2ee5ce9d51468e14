// Writes the head of a recording: the same bytes for the same facts, whatever the recording's container, byte order, padding
// or repeated keys.
#![tactic(auto)]

use head::from_image::write_image_head;
use std::io;
use std::io::{Read, Write};
use table::row::Row;
use wire::refusal::WithoutLayer;

// No recording is longer here. One byte more is read, which tells that the input is.
const LONGEST_IMAGE: usize = 65_536;

const ROWS: usize = 4_096;

const HEAD_BYTES: usize = 65_536;

fn main(rt: HostRuntime) -> io::Result<()> {
    let mut image = Vec::new(rt.alloc());
    rt.stdin()
        .take(LONGEST_IMAGE as u64 + 1)
        .read_to_end(&mut image)?;
    let mut rows = vec![in rt.alloc(); Row::BLANK; ROWS]?;
    let mut out = vec![in rt.alloc(); 0u8; HEAD_BYTES]?;
    match write_image_head(&image, LONGEST_IMAGE, &mut rows, &mut out) {
        Ok(len) => rt.stdout().write_all(&out[..len]),
        Err(refusal) => {
            let refused = WithoutLayer(refusal);
            println!(rt; "{refused}")
        }
    }
}
