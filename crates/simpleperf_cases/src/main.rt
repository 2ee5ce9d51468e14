// Reads the symbol tables that standard input lists, one section a line: a byte order (little or big), a space, and an x
// with the section's bytes in hexadecimal. Answers each with a line, that of crates/answers to the question
// `symbol_tables`: its records, or the refusal.
#![tactic(auto)]

use answers::answer;
use anyhow::{Context, anyhow};
use hexadecimal::decode;
use perf_data::features::Feature;
use section_store::SectionStore;
use simpleperf::file::SimpleperfFileRecord;
use simpleperf::questions::{symbol_table, symbol_tables};
use simpleperf::tables::SymbolTables;
use std::io::{BufRead, BufReader};
use wire::order::ByteOrder;

// Whether two records say the same of a file, but for what its type says.
// Symbols are equal where the walks over them give the same, wherever they lie.
fn is_same(a: SimpleperfFileRecord<'_>, b: SimpleperfFileRecord<'_>) -> bool {
    a.path == b.path
        && a.file_type == b.file_type
        && a.min_vaddr == b.min_vaddr
        && a.symbol.eq(b.symbol)
}

// The records as they are asked for one by one: as many as the walk gives, and none past the last.
fn agree(store: &SectionStore<'_>, tables: SymbolTables<'_>) -> bool {
    let ends = matches!(symbol_table(store, tables.count()), Ok(None));
    ends && tables.enumerate().all(|(k, file)| match symbol_table(store, k) {
        Ok(Some(asked)) => is_same(asked, file),
        _ => false,
    })
}

fn check_records(section: &[u8], order: ByteOrder) -> anyhow::Result<()> {
    let store = SectionStore::new(order, Feature::SIMPLEPERF_FILE.0, section);
    match symbol_tables(&store) {
        Ok(Some(tables)) if !agree(&store, tables) => {
            Err(anyhow!("a record asked for is not that of the walk"))
        }
        _ => Ok(()),
    }
}

fn print_line(rt: &HostRuntime, line: &str) -> anyhow::Result<()> {
    let (name, text) = line
        .split_once(" x")
        .context("a line is a byte order, a space, x and hexadecimal")?;
    let section = decode(rt.alloc(), text.as_bytes())?.context("a line has no whole hexadecimal")?;
    let order = name.parse::<ByteOrder>()?;
    check_records(&section, order)?;
    // The words for a byte order in docs/ASK.md.
    let word = match order {
        ByteOrder::Little => "le",
        ByteOrder::Big => "be",
    };
    let question = format!(in rt.alloc(); "symbol_tables {word} 0 x{text}")?;
    let told = answer(rt.alloc(), question.as_str(), &mut [])?;
    println!(rt; "{told}")?;
    Ok(())
}

fn main(rt: HostRuntime) -> anyhow::Result<()> {
    for line in BufReader::new(rt.alloc(), rt.stdin())?.lines(rt.alloc()) {
        print_line(&rt, line?.as_str())?;
    }
    Ok(())
}
