// What the questions answer, and the items of their lists, as a head has them.
ghost use Rattle.std.specs.Prelude.{ℕ, List, [], ◌++◌};
ghost use Rattle.std.specs.List.{flat_map};
ghost use Rattle.facts.specs.Written.{u32, u64, text_bytes, counted_bytes, symbol_bytes};
ghost use Rattle.perf_data.specs.Lists.{to_come};
ghost use Rattle.perf_data.specs.Questions.{answered};
ghost use Rattle.put.specs.Appends.{Appends};
ghost use Rattle.put_facts.specs.Sized.{counted_file};
ghost use Rattle.put_facts.specs.Writes.{Writes};
ghost use Rattle.simpleperf.specs.Answers.{symbol_of, file_of, files_of};

use crate::files::put_sized;
use crate::items::{put_counted, put_items};
use crate::parts::{put_ended, put_text};
use fixed_facts::feature_sections::{ClockFrequency, NrCpus, TotalMem};
use perf_data::string_list::StringList;
use put::Writer;
use simpleperf::file::SimpleperfFileRecord;
use simpleperf::symbol::SimpleperfSymbol;
use simpleperf::tables::SymbolTables;
use wire::refusal::Refusal;

pub(crate) trait Told {
    // What it is written as.
    ghost bytes: { Self → List ℕ };

    fn put(self, w: &mut Writer<'_>)
        ensures { Appends (bytes self) w.old w.new };
}

// Writes what is answered, and answers whether the feature is there.
pub(crate) fn put_answer<T: Told>(
    read: Result<Option<T>, Refusal>,
    w: &mut Writer<'_>,
) -> Result<bool, Refusal>
    ensures { Writes (answered T.Told.bytes read) w.old result w.new }
{
    let Some(fact) = read? else {
        return Ok(false);
    };
    fact.put(w);
    Ok(true)
}

impl Told for &str {
    ghost bytes = { λ s. text_bytes s.now };

    fn put(self, w: &mut Writer<'_>) {
        put_text(self.as_bytes(), w);
    }
}

impl Told for u64 {
    ghost bytes = { u64 };

    fn put(self, w: &mut Writer<'_>) {
        w.put_number(self);
    }
}

impl Told for NrCpus {
    ghost bytes = { λ s. u32 s.nr_cpus_available ++ u32 s.nr_cpus_online };

    fn put(self, w: &mut Writer<'_>) {
        w.put_number(self.nr_cpus_available);
        w.put_number(self.nr_cpus_online);
    }
}

impl Told for TotalMem {
    ghost bytes = { λ s. u64 s.kilobytes };

    fn put(self, w: &mut Writer<'_>) {
        w.put_number(self.kilobytes);
    }
}

impl Told for ClockFrequency {
    ghost bytes = { λ s. u64 s.ns_per_tick };

    fn put(self, w: &mut Writer<'_>) {
        w.put_number(self.ns_per_tick);
    }
}

impl Told for SimpleperfSymbol<'_> {
    ghost bytes = { λ s. symbol_bytes (symbol_of s) };

    fn put(self, w: &mut Writer<'_>) {
        w.put_number(self.vaddr);
        w.put_number(self.len);
        put_ended(self.name.as_bytes(), w);
    }
}

impl Told for SimpleperfFileRecord<'_> {
    ghost bytes = { λ s. counted_file (file_of s) };

    fn put(self, w: &mut Writer<'_>) {
        put_sized(self, w);
    }
}

impl Told for StringList<'_> {
    ghost bytes = { λ s. counted_bytes text_bytes (to_come s) };

    fn put(self, w: &mut Writer<'_>) {
        put_counted(self, w);
    }
}

impl Told for SymbolTables<'_> {
    ghost bytes = { λ s. flat_map counted_file (files_of s) };

    fn put(self, w: &mut Writer<'_>) {
        put_items(self, w);
    }
}

// That there is a section, whatever it says.
#[derive(Clone, Copy)]
pub(crate) struct Mark;

impl Told for Mark {
    ghost bytes = { λ _. [] };

    fn put(self, _w: &mut Writer<'_>) {}
}
