// The fact of a carried feature.
ghost use Rattle.facts.specs.Head.{answer};
ghost use Rattle.put_facts.specs.Writes.{in_bytes, Writes};

use crate::tables::put_table_fact;
use crate::told::{Mark, put_answer};
use facts::carried::{Carried, Tabled};
use fixed_facts::perf_file::{clock_frequency, is_stats, nr_cpus, total_mem};
use image::store::Store;
use perf_data::features::Feature;
use perf_data::perf_file::{cmdline, feature_string};
use put::Writer;
use simpleperf::questions::symbol_tables;
use wire::refusal::Refusal;

// Writes the fact of a carried feature, as a head has it, and answers whether the feature is there. No rows are lent: a
// table that has a row is refused, and is for `put_table_fact` to write.
pub fn put_fact<'a, S: Store<'a>>(
    store: &S,
    feature: Carried,
    w: &mut Writer<'_>,
) -> Result<bool, Refusal>
    ensures { Writes (in_bytes (answer 0 (S.endian store.now) (S.map store.now).at feature)) w.old result w.new }
{
    match feature {
        Carried::BuildId => put_table_fact(store, Tabled::BuildIds, &mut [], w),
        Carried::PmuMappings => put_table_fact(store, Tabled::PmuNames, &mut [], w),
        Carried::SimpleperfMetaInfo => put_table_fact(store, Tabled::MetaInfo, &mut [], w),
        Carried::NrCpus => put_answer(nr_cpus(store), w),
        Carried::TotalMem => put_answer(total_mem(store), w),
        Carried::CmdLine => put_answer(cmdline(store), w),
        Carried::Stat => put_answer(Ok(is_stats(store).then_some(Mark)), w),
        Carried::ClockId => put_answer(clock_frequency(store), w),
        Carried::SimpleperfFile => put_answer(symbol_tables(store), w),
        Carried::Hostname
        | Carried::OsRelease
        | Carried::Version
        | Carried::Arch
        | Carried::CpuDesc
        | Carried::CpuId => {
            let text = feature_string(store, Feature(u32::from(feature)));
            put_answer(text, w)
        }
    }
}
