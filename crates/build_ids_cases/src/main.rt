// Answers the questions that standard input lists, one a line, each with a line:
//   key MISC xPATH: the key of a path in the mode of a misc, the least mode that gives it, and its name
//   name MISC ROOM xPATH: the name, written into a buffer of so many bytes aa
//   section ORDER ROWS xBYTES: the table of a section of build ids, in so many rows
//   absent ORDER ROWS x: the same of a store that has no such section
#![tactic(auto)]

use anyhow::{Context, anyhow};
use build_ids::builds::Builds;
use build_ids::perf_file::build_ids;
use dso_key::cpu_mode::CpuMode;
use dso_key::dso_key::DsoKey;
use dso_key::least::least_mode;
use dso_key::write::name;
use hexadecimal::{Hex, decode};
use image::store::Store;
use perf_data::features::Feature;
use section_store::SectionStore;
use std::io::{BufRead, BufReader};
use table::row::Row;
use table_cases::caller::DIRTY;
use wire::order::ByteOrder;
use wire::refusal::Refusal;

// How long the name of a key may be, for a line to be answered.
const MOST_NAME: usize = 512;

fn print_key(rt: &HostRuntime, misc: u16, path: &[u8]) -> anyhow::Result<()> {
    let mode = CpuMode::of_misc(misc);
    let (Some(key), Some(least)) = (DsoKey::detect(path, mode), least_mode(path, mode)) else {
        rt.println("none")?;
        return Ok(());
    };
    let mut room = [0u8; MOST_NAME];
    let Ok(Some(len)) = name(path, misc, &mut room) else {
        return Err(anyhow!("a name has {MOST_NAME} bytes at most"));
    };
    println!(rt;
        "{} least {} name x{}",
        key.kind(),
        u32::from(least),
        Hex(&room[..len])
    )?;
    Ok(())
}

// A count, the word for there being none, or the refusal.
fn print_count(
    rt: &HostRuntime,
    counted: Result<Option<usize>, Refusal>,
    none: &str,
) -> anyhow::Result<()> {
    match counted {
        Ok(Some(n)) => print!(rt; "{n}")?,
        Ok(None) => print!(rt; "{none}")?,
        Err(refusal) => print!(rt; "{refusal}")?,
    }
    Ok(())
}

fn print_name(rt: &HostRuntime, misc: u16, room: usize, path: &[u8]) -> anyhow::Result<()> {
    let mut out = vec![in rt.alloc(); 0xAAu8; room]?;
    print_count(rt, name(path, misc, &mut out), "none")?;
    println!(rt; " x{}", Hex(&out))?;
    Ok(())
}

fn print_row(rt: &HostRuntime, builds: &Builds<'_>, row: &Row) -> anyhow::Result<()> {
    match builds.key(row) {
        Some(key) => print!(rt; " {}", key.kind())?,
        None => print!(rt; " none")?,
    }
    print!(rt;
        " {} x{} x{}",
        row.number,
        Hex(builds.path(row)),
        Hex(builds.id(row))
    )?;
    Ok(())
}

fn print_section(rt: &HostRuntime, store: SectionStore<'_>, room: usize) -> anyhow::Result<()> {
    let mut rows = vec![in rt.alloc(); DIRTY; room]?;
    let counted = build_ids(&store, &mut rows);
    print_count(rt, counted, "absent")?;
    let used = counted.ok().flatten().unwrap_or(0);
    let builds = Builds {
        section: store.section(Feature::BUILD_ID.0).unwrap_or(b""),
    };
    for row in rows.iter().take(used) {
        print_row(rt, &builds, row)?;
    }
    for row in rows.iter().skip(used) {
        if *row != Row::BLANK {
            print!(rt; " stale")?;
        }
    }
    println!(rt; "")?;
    Ok(())
}

fn print_line(rt: &HostRuntime, line: &str) -> anyhow::Result<()> {
    let (words, text) = line
        .split_once(" x")
        .context("a line ends in x and hexadecimal")?;
    let bytes = decode(rt.alloc(), text.as_bytes())?.context("a line has no whole hexadecimal")?;
    let mut words = words.split(' ');
    let (what, first, second) = (words.next(), words.next(), words.next());
    match (what, first, second) {
        (Some("key"), Some(misc), None) => print_key(rt, misc.parse::<u16>()?, &bytes),
        (Some("name"), Some(misc), Some(room)) => {
            print_name(rt, misc.parse::<u16>()?, room.parse::<usize>()?, &bytes)
        }
        (Some(what), Some(order), Some(room)) => {
            // any word but `big` is little-endian
            let order = order.parse().unwrap_or(ByteOrder::Little);
            let store = if what == "section" {
                SectionStore::new(order, Feature::BUILD_ID.0, &bytes)
            } else {
                SectionStore::absent(order)
            };
            print_section(rt, store, room.parse::<usize>()?)
        }
        _ => Err(anyhow!("a line is a key, a name or a section")),
    }
}

fn main(rt: HostRuntime) -> anyhow::Result<()> {
    for line in BufReader::new(rt.alloc(), rt.stdin())?.lines(rt.alloc()) {
        print_line(&rt, line?.as_str())?;
    }
    Ok(())
}
