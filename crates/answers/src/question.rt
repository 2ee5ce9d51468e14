// The questions that a line can ask.
use std::str::FromStr;

// A question, by its word.
#[derive(Clone, Copy, PartialEq, Eq, Debug)]
pub enum Question {
    Hostname,
    OsRelease,
    PerfVersion,
    Arch,
    CpuDesc,
    CpuId,
    Cmdline,
    NrCpus,
    TotalMem,
    SampleTimeRange,
    ClockFrequency,
    CompressionInfo,
    ClockData,
    IsStats,
    PmuMappings,
    MetaInfo,
    BuildIds,
    SymbolTables,
    Detect,
    Shown,
}

// A word that names no question.
#[derive(Clone, Copy, PartialEq, Eq, Debug)]
pub struct UnknownQuestion;

impl FromStr for Question {
    ghost use Rattle.answers.specs.Questions.{ReadsQuestion};

    type Err = UnknownQuestion;

    ghost from_str_gives = { ReadsQuestion };

    fn from_str(word: &str) -> Result<Question, UnknownQuestion> {
        Ok(match word {
            "hostname" => Question::Hostname,
            "os_release" => Question::OsRelease,
            "perf_version" => Question::PerfVersion,
            "arch" => Question::Arch,
            "cpu_desc" => Question::CpuDesc,
            "cpu_id" => Question::CpuId,
            "cmdline" => Question::Cmdline,
            "nr_cpus" => Question::NrCpus,
            "total_mem" => Question::TotalMem,
            "sample_time_range" => Question::SampleTimeRange,
            "clock_frequency" => Question::ClockFrequency,
            "compression_info" => Question::CompressionInfo,
            "clock_data" => Question::ClockData,
            "is_stats" => Question::IsStats,
            "pmu_mappings" => Question::PmuMappings,
            "meta_info" => Question::MetaInfo,
            "build_ids" => Question::BuildIds,
            "symbol_tables" => Question::SymbolTables,
            "detect" => Question::Detect,
            "shown" => Question::Shown,
            _ => return Err(UnknownQuestion),
        })
    }
}
