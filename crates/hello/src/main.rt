// A caller of the library: opens a recording, asks it two questions, and makes its head.
#![tactic(auto)]

use fixed_facts::perf_file::nr_cpus;
use head::head::write_head;
use hexadecimal::Hex;
use image::kinds::Image;
use image::section::LONGEST;
use perf_data::perf_file::hostname;
use std::io::Read;
use table::row::Row;

fn main(rt: HostRuntime) -> anyhow::Result<()> {
    let mut bytes = Vec::new(rt.alloc());
    rt.stdin().take(LONGEST as u64 + 1).read_to_end(&mut bytes)?;
    let image = Image::open(&bytes)?;
    if let Some(name) = hostname(&image)? {
        println!(rt; "host name {name}")?;
    }
    if let Some(cpus) = nr_cpus(&image)? {
        println!(rt;
            "{} of {} processors online",
            cpus.nr_cpus_online, cpus.nr_cpus_available
        )?;
    }
    let mut rows = [Row::BLANK; 64];
    let mut head = vec![in rt.alloc(); 0u8; 65_536]?;
    let len = write_head(&image, &mut rows, &mut head)?;
    println!(rt; "head of {len} bytes x{}", Hex(&head[..len]))?;
    Ok(())
}
