// Facts of a fixed length: numbers, one after the other.
ghost use Rattle.std.specs.Prelude.{◌≡◌, ℕ, List, Result as Answer};
ghost use Rattle.wire.specs.declared.order.ByteOrder.{ByteOrder as Order};
ghost use Rattle.wire.specs.declared.refusal.Fault.{Fault};
ghost use Rattle.fixed_facts.specs.Fixed.{field, whole64, nr_cpus_in, sample_time_range_in, compression_info_in, clock_data_in, total_mem_in, clock_frequency_in, parsed, parsed_as};

use perf_data::features::Feature;
use wire::order::{ByteOrder, Number, tail};
use wire::refusal::Refusal;

// A fact of a fixed length: the feature whose section it is, how many bytes it has, and what they are read as.
pub trait FixedFact: Sized {
    const FEATURE: u32;

    const STRUCT_SIZE: usize;

    // the two constants, for contracts
    ghost FEATURE: { ℕ };

    ghost STRUCT_SIZE: { ℕ };

    // What its bytes are read as, in the section of a feature.
    ghost read: { ℕ → Order → List ℕ → Answer Self Fault };

    // Reads the fields. What is refused is so as of the feature whose section they are in.
    fn from_fields(fields: &Fields<'_>) -> Result<Self, Refusal>
        ensures { parsed result ≡ read fields.now.feature fields.now.order fields.now.bytes.now };

    // The fact that some bytes are, as in its own feature's section.
    fn parse(order: ByteOrder, bytes: &[u8]) -> Result<Self, Refusal>
        ensures { parsed result ≡ read FEATURE order bytes.now }
    {
        Self::from_fields(&Fields {
            feature: Self::FEATURE,
            order,
            bytes,
        })
    }
}

// The bytes of a feature's section, and the order that its numbers have.
#[derive(Clone, Copy)]
pub struct Fields<'a> {
    pub feature: u32,
    pub order: ByteOrder,
    pub bytes: &'a [u8],
}

impl Fields<'_> {
    // The number that stands at an offset.
    fn at<N: Number>(&self, at: u32) -> Result<N, Refusal>
        ensures { parsed_as N.value result ≡ field self.now.feature self.now.order N.WIDTH self.now.bytes.now «at» }
    {
        let number = N::read(self.order, tail(self.bytes, at as usize));
        number.ok_or(Refusal::CutShort {
            feature: self.feature,
            at,
        })
    }

    // The one number of a section that is a u64.
    fn whole_u64(&self) -> Result<u64, Refusal>
        ensures { parsed result ≡ whole64 self.now.feature self.now.order self.now.bytes.now }
    {
        self.order.u64(self.bytes).ok_or(Refusal::SectionTooSmall {
            feature: self.feature,
        })
    }
}

// How many processors there are, and how many were online.
#[derive(Clone, Copy)]
pub struct NrCpus {
    pub nr_cpus_available: u32,
    pub nr_cpus_online: u32,
}

impl FixedFact for NrCpus {
    const FEATURE: u32 = Feature::NRCPUS.0;

    const STRUCT_SIZE: usize = 8;

    ghost FEATURE = { 7 };

    ghost STRUCT_SIZE = { 8 };

    ghost read = { nr_cpus_in };

    fn from_fields(fields: &Fields<'_>) -> Result<NrCpus, Refusal> {
        Ok(NrCpus {
            nr_cpus_available: fields.at(0)?,
            nr_cpus_online: fields.at(4)?,
        })
    }
}

// The memory of the machine.
#[derive(Clone, Copy)]
pub struct TotalMem {
    pub kilobytes: u64,
}

impl FixedFact for TotalMem {
    const FEATURE: u32 = Feature::TOTAL_MEM.0;

    const STRUCT_SIZE: usize = 8;

    ghost FEATURE = { 10 };

    ghost STRUCT_SIZE = { 8 };

    ghost read = { total_mem_in };

    fn from_fields(fields: &Fields<'_>) -> Result<TotalMem, Refusal> {
        Ok(TotalMem {
            kilobytes: fields.whole_u64()?,
        })
    }
}

// When the first and the last sample were taken, by the clock of the samples.
#[derive(Clone, Copy)]
pub struct SampleTimeRange {
    pub first_sample_time: u64,
    pub last_sample_time: u64,
}

impl FixedFact for SampleTimeRange {
    const FEATURE: u32 = Feature::SAMPLE_TIME.0;

    const STRUCT_SIZE: usize = 16;

    ghost FEATURE = { 21 };

    ghost STRUCT_SIZE = { 16 };

    ghost read = { sample_time_range_in };

    fn from_fields(fields: &Fields<'_>) -> Result<SampleTimeRange, Refusal> {
        Ok(SampleTimeRange {
            first_sample_time: fields.at(0)?,
            last_sample_time: fields.at(8)?,
        })
    }
}

// How long a tick of the clock of the samples is.
#[derive(Clone, Copy)]
pub struct ClockFrequency {
    pub ns_per_tick: u64,
}

impl FixedFact for ClockFrequency {
    const FEATURE: u32 = Feature::CLOCKID.0;

    const STRUCT_SIZE: usize = 8;

    ghost FEATURE = { 23 };

    ghost STRUCT_SIZE = { 8 };

    ghost read = { clock_frequency_in };

    fn from_fields(fields: &Fields<'_>) -> Result<ClockFrequency, Refusal> {
        Ok(ClockFrequency {
            ns_per_tick: fields.whole_u64()?,
        })
    }
}

// How the records of the data are compressed.
#[derive(Clone, Copy)]
pub struct CompressionInfo {
    pub version: u32,
    // 1 is Zstd; any other number is carried as it is
    pub type_: u32,
    pub level: u32,
    pub ratio: u32,
    pub mmap_len: u32,
}

impl FixedFact for CompressionInfo {
    const FEATURE: u32 = Feature::COMPRESSED.0;

    const STRUCT_SIZE: usize = 20;

    ghost FEATURE = { 27 };

    ghost STRUCT_SIZE = { 20 };

    ghost read = { compression_info_in };

    fn from_fields(fields: &Fields<'_>) -> Result<CompressionInfo, Refusal> {
        Ok(CompressionInfo {
            version: fields.at(0)?,
            type_: fields.at(4)?,
            level: fields.at(8)?,
            ratio: fields.at(12)?,
            mmap_len: fields.at(16)?,
        })
    }
}

// The clock of the samples, and what it showed at a moment of the wall clock.
#[derive(Clone, Copy)]
pub struct ClockData {
    pub clockid: u32,
    pub wall_clock_ns: u64,
    pub clockid_time_ns: u64,
}

impl FixedFact for ClockData {
    const FEATURE: u32 = Feature::CLOCK_DATA.0;

    const STRUCT_SIZE: usize = 24;

    ghost FEATURE = { 29 };

    ghost STRUCT_SIZE = { 24 };

    ghost read = { clock_data_in };

    fn from_fields(fields: &Fields<'_>) -> Result<ClockData, Refusal> {
        let version: u32 = fields.at(0)?;
        if version != 1 {
            return Err(Refusal::WrongClockVersion);
        }
        Ok(ClockData {
            clockid: fields.at(4)?,
            wall_clock_ns: fields.at(8)?,
            clockid_time_ns: fields.at(16)?,
        })
    }
}
