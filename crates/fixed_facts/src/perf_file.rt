// The questions that sections of a fixed length answer.
ghost use Rattle.std.specs.Prelude.{◌≡◌, is_some};
ghost use Rattle.perf_data.specs.Questions.{question, answered};
ghost use Rattle.fixed_facts.specs.Fixed.{of_first, nr_cpus, total_mem, sample_time_range, clock_frequency, compression_info, clock_data, stats, is_there};

use crate::feature_sections::{
    ClockData, ClockFrequency, CompressionInfo, FixedFact, NrCpus, SampleTimeRange, TotalMem,
};
use image::ask::section_of;
use image::store::Store;
use perf_data::features::Feature;
use wire::refusal::Refusal;

// Of a section that is a fact of a fixed length. Further bytes are ignored.
fn fixed_fact<'a, F: FixedFact, S: Store<'a>>(store: &S) -> Result<Option<F>, Refusal>
    ensures { answered (λ x. x) result ≡ question (of_first F.STRUCT_SIZE (F.read F.FEATURE)) (S.endian store.now) ((S.map store.now).at F.FEATURE) }
{
    let Some(section) = section_of(store, F::FEATURE) else {
        return Ok(None);
    };
    let bytes = section.bytes.get(..F::STRUCT_SIZE).unwrap_or(section.bytes);
    Ok(Some(F::parse(section.order, bytes)?))
}

// How many processors the machine has, and how many were online.
pub fn nr_cpus<'a, S: Store<'a>>(store: &S) -> Result<Option<NrCpus>, Refusal>
    ensures { answered (λ x. x) result ≡ question (of_first 8 nr_cpus) (S.endian store.now) ((S.map store.now).at 7) }
{
    fixed_fact(store)
}

// How much memory the machine has.
pub fn total_mem<'a, S: Store<'a>>(store: &S) -> Result<Option<TotalMem>, Refusal>
    ensures { answered (λ x. x) result ≡ question (of_first 8 total_mem) (S.endian store.now) ((S.map store.now).at 10) }
{
    fixed_fact(store)
}

// When the first and the last sample were taken.
pub fn sample_time_range<'a, S: Store<'a>>(store: &S) -> Result<Option<SampleTimeRange>, Refusal>
    ensures { answered (λ x. x) result ≡ question (of_first 16 sample_time_range) (S.endian store.now) ((S.map store.now).at 21) }
{
    fixed_fact(store)
}

// How long a tick of the clock of the samples is.
pub fn clock_frequency<'a, S: Store<'a>>(store: &S) -> Result<Option<ClockFrequency>, Refusal>
    ensures { answered (λ x. x) result ≡ question (of_first 8 clock_frequency) (S.endian store.now) ((S.map store.now).at 23) }
{
    fixed_fact(store)
}

// How the records of the data are compressed.
pub fn compression_info<'a, S: Store<'a>>(store: &S) -> Result<Option<CompressionInfo>, Refusal>
    ensures { answered (λ x. x) result ≡ question (of_first 20 compression_info) (S.endian store.now) ((S.map store.now).at 27) }
{
    fixed_fact(store)
}

// The clock of the samples, and what it showed at a moment of the wall clock.
pub fn clock_data<'a, S: Store<'a>>(store: &S) -> Result<Option<ClockData>, Refusal>
    ensures { answered (λ x. x) result ≡ question (of_first 24 clock_data) (S.endian store.now) ((S.map store.now).at 29) }
{
    fixed_fact(store)
}

// Whether the recording is of `perf stat`, which leaves a section that says no more.
pub fn is_stats<'a, S: Store<'a>>(store: &S) -> bool
    ensures is { result ≡ is_some ((S.map store.now).at 19) }
    ensures question { is_there result ≡ question stats (S.endian store.now) ((S.map store.now).at 19) }
{
    store.section(Feature::STAT.0).is_some()
}
