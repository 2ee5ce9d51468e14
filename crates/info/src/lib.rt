// Tells what an image holds: its kind, its byte order and its feature sections, with the facts that are known how to read; or
// where it is refused.
#![tactic(auto)]

ghost use Rattle.std.specs.Prelude.{◌≡◌};
ghost use Rattle.info.specs.Names.{section_name};

mod answer;
mod printable;
mod tables;
mod words;

use answer::{print_answer, said};
use build_ids::builds::Builds;
use fixed_facts::perf_file::{
    clock_data, clock_frequency, compression_info, is_stats, nr_cpus, sample_time_range, total_mem,
};
use image::ask::section_of;
use image::index::FEATURES;
use image::kinds::{Image, Kind};
use image::store::Store;
use perf_data::features::Feature;
use perf_data::perf_file::{cmdline, feature_string};
use perf_data::string_list::StringList;
use printable::Word;
use std::io;
use tables::{BuildTable, MetaTable, PmuTable, print_symbols, print_table};
use wire::refusal::{Refusal, WithoutLayer};
use words::InWords;

// Each word has its own space in front, so that a list of no words ends its line with the colon.
fn print_words(
    rt: &HostRuntime,
    answer: Result<Option<StringList<'_>>, Refusal>,
) -> io::Result<()> {
    let Some(words) = said(rt, answer)? else {
        return Ok(());
    };
    print!(rt; ":")?;
    for text in words {
        let word = Word(text);
        print!(rt; " {word}")?;
    }
    println!(rt; "")
}

// What a section says, behind its length.
fn print_fact<'a, S: Store<'a>>(
    rt: &HostRuntime,
    store: &S,
    feature: Feature,
    section: &[u8],
) -> io::Result<()> {
    match feature {
        Feature::BUILD_ID => {
            let builds = Builds { section };
            print_table(rt, BuildTable { store, builds }, section.len())
        }
        Feature::HOSTNAME
        | Feature::OSRELEASE
        | Feature::VERSION
        | Feature::ARCH
        | Feature::CPUDESC
        | Feature::CPUID => print_answer(rt, feature_string(store, feature)),
        Feature::NRCPUS => print_answer(rt, nr_cpus(store)),
        Feature::TOTAL_MEM => print_answer(rt, total_mem(store)),
        Feature::CMDLINE => print_words(rt, cmdline(store)),
        Feature::PMU_MAPPINGS => print_table(rt, PmuTable(store), section.len()),
        Feature::SIMPLEPERF_FILE => print_symbols(rt, store),
        Feature::SIMPLEPERF_META_INFO => print_table(rt, MetaTable(store), section.len()),
        Feature::STAT if is_stats(store) => println!(rt; ": of perf stat"),
        Feature::SAMPLE_TIME => print_answer(rt, sample_time_range(store)),
        Feature::CLOCKID => print_answer(rt, clock_frequency(store)),
        Feature::COMPRESSED => print_answer(rt, compression_info(store)),
        Feature::CLOCK_DATA => print_answer(rt, clock_data(store)),
        _ => println!(rt; ""),
    }
}

// What a section is called. perf ends the features of a recording through a pipe by an empty one of the number after its last.
fn section_name(kind: Kind, feature: Feature, section: &[u8]) -> &'static str
    ensures { result.now ≡ section_name «kind» feature.0 section.now }
{
    match feature.name() {
        Some(name) => name,
        None if kind == Kind::Pipe && section.is_empty() => "end mark",
        None => "unknown",
    }
}

fn print_section<'a, S: Store<'a>>(
    rt: &HostRuntime,
    store: &S,
    kind: Kind,
    feature: Feature,
    section: &[u8],
) -> io::Result<()> {
    let number = feature.0;
    let len = section.len();
    let name = section_name(kind, feature, section);
    print!(rt; "{number:>3} {name} ({len} bytes)")?;
    print_fact(rt, store, feature, section)
}

fn print_store<'a, S: Store<'a>>(rt: &HostRuntime, store: &S, kind: Kind) -> io::Result<()> {
    for number in 0..FEATURES as u32 {
        if let Some(section) = section_of(store, number) {
            print_section(rt, store, kind, Feature(number), section.bytes)?;
        }
    }
    Ok(())
}

// What an image holds, in lines; or where it is refused.
pub fn print_image(rt: &HostRuntime, image: &[u8]) -> io::Result<()> {
    match Image::open(image) {
        Err(refusal) => {
            let refused = WithoutLayer(refusal);
            println!(rt; "{refused}")
        }
        Ok(store) => {
            let kind = InWords(store.kind());
            let order = InWords(store.order());
            println!(rt; "{kind}, {order}")?;
            print_store(rt, &store, store.kind())
        }
    }
}
