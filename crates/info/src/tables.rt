// Sections that are many entries: an entry a line, below the section's own.
ghost use Rattle.std.specs.Prelude.{◌≡◌, ◌+◌, ◌/◌, min, IfOk, vec_len, string_bytes, false};
ghost use Rattle.info.specs.Plain.{printed};
ghost use Rattle.text.specs.Pieces.{shown};

use crate::answer::said;
use crate::words::InWords;
use build_ids::builds::Builds;
use build_ids::perf_file::build_ids;
use hexadecimal::Hex;
use image::store::Store;
use mappings::meta_info::{meta_entry, meta_info};
use mappings::pmu_mappings::{pmu_entry, pmu_mappings};
use simpleperf::file::SimpleperfFileRecord;
use simpleperf::questions::symbol_tables;
use std::io;
use std::str::from_utf8;
use table::row::Row;
use text::shown::Shown;
use wire::refusal::Refusal;

// Bytes as a text: in their shown form, and escaped.
fn escaped(rt: &HostRuntime, bytes: &[u8]) -> io::Result<String>
    ensures { IfOk result (λ s. string_bytes s ≡ printed false (shown bytes.now)) }
{
    let shown: Vec<u8> = Shown::new(bytes).collect(rt.alloc())?;
    let text = InWords(from_utf8(&shown).unwrap_or(""));
    Ok(text.to_string(rt.alloc())?)
}

// No table gets more rows: where its keys fall, each moves all rows before it.
const MOST_ROWS: usize = 65_536;

// Rows for as many entries as a section can have, of which the shortest is two bytes; up to the most.
fn rows_for(rt: &HostRuntime, len: usize) -> io::Result<Vec<Row>>
    ensures { IfOk result (λ v. vec_len v ≡ min (len / 2 + 1) 65536) }
{
    Ok(vec![in rt.alloc(); Row::BLANK; (len / 2 + 1).min(MOST_ROWS)]?)
}

// A table of a store. The sections of the store live for `'a`, which the impls cannot name in a bound alone.
pub trait Table<'a> {
    // What its entries are called.
    const ENTRIES: &'static str;

    // How many rows it uses, if it is there.
    fn read(&self, rows: &mut [Row]) -> Result<Option<usize>, Refusal>;

    // What the entry of a row says.
    fn entry(&self, rt: &HostRuntime, row: &Row) -> io::Result<Option<String>>;
}

// The pmu names of a store.
#[derive(Drop)]
pub struct PmuTable<'s, S>(pub &'s S);

impl<'a, S: Store<'a>> Table<'a> for PmuTable<'_, S> {
    const ENTRIES: &'static str = "names";

    fn read(&self, rows: &mut [Row]) -> Result<Option<usize>, Refusal> {
        pmu_mappings(self.0, rows)
    }

    fn entry(&self, rt: &HostRuntime, row: &Row) -> io::Result<Option<String>> {
        let Some(entry) = pmu_entry(self.0, row) else {
            return Ok(None);
        };
        let name = escaped(rt, entry.name)?;
        let number = entry.number;
        Ok(Some(format!(in rt.alloc(); "{name} = {number}")?))
    }
}

// The meta info of a store.
#[derive(Drop)]
pub struct MetaTable<'s, S>(pub &'s S);

impl<'a, S: Store<'a>> Table<'a> for MetaTable<'_, S> {
    const ENTRIES: &'static str = "entries";

    fn read(&self, rows: &mut [Row]) -> Result<Option<usize>, Refusal> {
        meta_info(self.0, rows)
    }

    fn entry(&self, rt: &HostRuntime, row: &Row) -> io::Result<Option<String>> {
        let Some(entry) = meta_entry(self.0, row) else {
            return Ok(None);
        };
        let key = escaped(rt, entry.key)?;
        let value = escaped(rt, entry.value)?;
        Ok(Some(format!(in rt.alloc(); "{key} = {value}")?))
    }
}

// The build ids of a store, whose section they lie in. Programs as `perf buildid-list` prints them, each with the name of its key
// behind it.
#[derive(Drop)]
pub struct BuildTable<'s, S> {
    pub store: &'s S,
    pub builds: Builds<'s>,
}

impl<'a, S: Store<'a>> Table<'a> for BuildTable<'_, S> {
    const ENTRIES: &'static str = "programs";

    fn read(&self, rows: &mut [Row]) -> Result<Option<usize>, Refusal> {
        build_ids(self.store, rows)
    }

    fn entry(&self, rt: &HostRuntime, row: &Row) -> io::Result<Option<String>> {
        let Some(key) = self.builds.key(row) else {
            return Ok(None);
        };
        let id = Hex(self.builds.id(row));
        let path = escaped(rt, self.builds.path(row))?;
        let name: Vec<u8> = key.name().collect(rt.alloc())?;
        let name = escaped(rt, &name)?;
        Ok(Some(format!(in rt.alloc(); "{id} {path} ({name})")?))
    }
}

// How many entries a table has, behind the length of its section, and each on a line of its own.
pub fn print_table<'a, T: Table<'a> + Drop>(
    rt: &HostRuntime,
    table: T,
    len: usize,
) -> io::Result<()> {
    let mut rows = rows_for(rt, len)?;
    let Some(used) = said(rt, table.read(&mut rows))? else {
        return Ok(());
    };
    let entries = T::ENTRIES;
    println!(rt; ": {used} {entries}")?;
    for row in rows.iter().take(used) {
        if let Some(entry) = table.entry(rt, row)? {
            println!(rt; "    {entry}")?;
        }
    }
    Ok(())
}

fn print_file(rt: &HostRuntime, file: SimpleperfFileRecord<'_>) -> io::Result<()> {
    let path = InWords(file.path);
    let file_type = u32::from(file.file_type);
    let symbols = file.symbol.count();
    println!(rt; "    {path} (type {file_type}, {symbols} symbols)")
}

// The files of a simpleperf recording, each on a line of its own.
pub fn print_symbols<'a, S: Store<'a>>(rt: &HostRuntime, store: &S) -> io::Result<()> {
    let Some(tables) = said(rt, symbol_tables(store))? else {
        return Ok(());
    };
    let files = tables.count();
    println!(rt; ": {files} files")?;
    for file in tables {
        print_file(rt, file)?;
    }
    Ok(())
}
