// The questions: which table is asked for, and of a store with the section of which feature.
use anyhow::anyhow;
use hexadecimal::Hex;
use mappings::meta_info::{MetaEntry, meta_entry, meta_info};
use mappings::pmu_mappings::{PmuEntry, pmu_entry, pmu_mappings};
use perf_data::features::Feature;
use section_store::SectionStore;
use std::fmt;
use std::str::FromStr;
use table::row::Row;
use wire::refusal::Refusal;

// The tables that a line may ask for.
#[derive(Clone, Copy)]
pub enum Table {
    PmuMappings,
    MetaInfo,
}

// A table, and the feature whose section the store has.
#[derive(Clone, Copy)]
pub struct Question {
    pub table: Table,
    pub asked_of: Feature,
}

impl FromStr for Question {
    type Err = anyhow::Error;

    fn from_str(s: &str) -> anyhow::Result<Question> {
        let (table, asked_of) = match s {
            "pmu" => (Table::PmuMappings, Feature::PMU_MAPPINGS),
            "no-pmu" => (Table::PmuMappings, Feature::SIMPLEPERF_META_INFO),
            "meta" => (Table::MetaInfo, Feature::SIMPLEPERF_META_INFO),
            "no-meta" => (Table::MetaInfo, Feature::PMU_MAPPINGS),
            _ => return Err(anyhow!("a question is pmu, no-pmu, meta or no-meta")),
        };
        Ok(Question { table, asked_of })
    }
}

// What a row stands for.
#[derive(Clone, Copy)]
pub enum Entry<'a> {
    Pmu(PmuEntry<'a>),
    Meta(MetaEntry<'a>),
}

impl fmt::Display for Entry<'_> {
    fn fmt<W: fmt::Write>(&self, f: &mut fmt::Formatter<W>) -> fmt::Result {
        match self {
            Entry::Pmu(entry) => write!(f, "{}:x{}", entry.number, Hex(entry.name)),
            Entry::Meta(entry) => write!(f, "x{}:x{}", Hex(entry.key), Hex(entry.value)),
        }
    }
}

impl Table {
    // The table's rows in those lent.
    pub fn read(
        self,
        store: &SectionStore<'_>,
        rows: &mut [Row],
    ) -> Result<Option<usize>, Refusal> {
        match self {
            Table::PmuMappings => pmu_mappings(store, rows),
            Table::MetaInfo => meta_info(store, rows),
        }
    }

    // What a row of the table stands for.
    pub fn entry<'a>(self, store: &SectionStore<'a>, row: &Row) -> Option<Entry<'a>> {
        match self {
            Table::PmuMappings => pmu_entry(store, row).map(Entry::Pmu),
            Table::MetaInfo => meta_entry(store, row).map(Entry::Meta),
        }
    }
}
