// Tells what each of the images that standard input lists holds, one a line in hexadecimal, in the words of perf_info.
#![tactic(auto)]

use anyhow::Context;
use hexadecimal::decode;
use info::print_image;
use std::io::{BufRead, BufReader};

fn print_line(rt: &HostRuntime, line: &str) -> anyhow::Result<()> {
    let image = decode(rt.alloc(), line.as_bytes())?.context("a line is no whole hexadecimal")?;
    print_image(rt, &image)?;
    Ok(())
}

fn main(rt: HostRuntime) -> anyhow::Result<()> {
    for line in BufReader::new(rt.alloc(), rt.stdin())?.lines(rt.alloc()) {
        print_line(&rt, line?.as_str())?;
    }
    Ok(())
}
