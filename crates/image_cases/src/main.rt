// Opens the images that standard input lists, one a line: a kind (any, file, pipe or head), a space, and an x with the
// image's bytes in hexadecimal. Answers each with a line: its byte order and its sections, or the refusal.
#![tactic(auto)]

use anyhow::{Context, anyhow};
use hexadecimal::{Hex, decode};
use image::ask::section_of;
use image::file::FileImage;
use image::head::HeadImage;
use image::kinds::Image;
use image::pipe::PipeImage;
use image::store::Store;
use std::io::{BufRead, BufReader};
use wire::refusal::Refusal;

// Numbers above 255 are asked for too, and have to be absent.
fn print_store<'a, S: Store<'a>>(rt: &HostRuntime, store: &S) -> anyhow::Result<()> {
    let order = store.order();
    print!(rt; "{order}")?;
    for number in 0..600u32 {
        if let Some(section) = section_of(store, number) {
            print!(rt; " {number}:x{}", Hex(section.bytes))?;
        }
    }
    println!(rt; "")?;
    Ok(())
}

fn print_opened<'a, S: Store<'a> + Drop>(
    rt: &HostRuntime,
    opened: Result<S, Refusal>,
) -> anyhow::Result<()> {
    match opened {
        Ok(store) => print_store(rt, &store),
        Err(refusal) => Ok(println!(rt; "{refusal}")?),
    }
}

fn print_line(rt: &HostRuntime, line: &str) -> anyhow::Result<()> {
    let (kind, text) = line
        .split_once(" x")
        .context("a line is a kind, a space, x and hexadecimal")?;
    let image = decode(rt.alloc(), text.as_bytes())?.context("a line has no whole hexadecimal")?;
    match kind {
        "any" => print_opened(rt, Image::open(&image)),
        "file" => print_opened(rt, FileImage::open(&image)),
        "pipe" => print_opened(rt, PipeImage::open(&image)),
        "head" => print_opened(rt, HeadImage::open(&image)),
        _ => Err(anyhow!("a kind is any, file, pipe or head")),
    }
}

fn main(rt: HostRuntime) -> anyhow::Result<()> {
    for line in BufReader::new(rt.alloc(), rt.stdin())?.lines(rt.alloc()) {
        print_line(&rt, line?.as_str())?;
    }
    Ok(())
}
