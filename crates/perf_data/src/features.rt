// Feature sections by number: those of perf, and from 128 on those of simpleperf.
ghost use Rattle.std.specs.Prelude.{◌≡◌};
ghost use Rattle.perf_data.specs.Features.{name_of, named};

// A piece of information about a recording, kept in a section of its own.
#[derive(Clone, Copy, PartialEq, Eq, Debug)]
pub struct Feature(pub u32);

impl Feature {
    // The constants are named as perf and simpleperf name their features.
    pub const TRACING_DATA: Feature = Feature(1);

    pub const BUILD_ID: Feature = Feature(2);

    pub const HOSTNAME: Feature = Feature(3);

    pub const OSRELEASE: Feature = Feature(4);

    pub const VERSION: Feature = Feature(5);

    pub const ARCH: Feature = Feature(6);

    pub const NRCPUS: Feature = Feature(7);

    pub const CPUDESC: Feature = Feature(8);

    pub const CPUID: Feature = Feature(9);

    pub const TOTAL_MEM: Feature = Feature(10);

    pub const CMDLINE: Feature = Feature(11);

    pub const EVENT_DESC: Feature = Feature(12);

    pub const CPU_TOPOLOGY: Feature = Feature(13);

    pub const NUMA_TOPOLOGY: Feature = Feature(14);

    pub const BRANCH_STACK: Feature = Feature(15);

    pub const PMU_MAPPINGS: Feature = Feature(16);

    pub const GROUP_DESC: Feature = Feature(17);

    pub const AUXTRACE: Feature = Feature(18);

    pub const STAT: Feature = Feature(19);

    pub const CACHE: Feature = Feature(20);

    pub const SAMPLE_TIME: Feature = Feature(21);

    pub const MEM_TOPOLOGY: Feature = Feature(22);

    pub const CLOCKID: Feature = Feature(23);

    pub const DIR_FORMAT: Feature = Feature(24);

    pub const BPF_PROG_INFO: Feature = Feature(25);

    pub const BPF_BTF: Feature = Feature(26);

    pub const COMPRESSED: Feature = Feature(27);

    pub const CPU_PMU_CAPS: Feature = Feature(28);

    pub const CLOCK_DATA: Feature = Feature(29);

    pub const HYBRID_TOPOLOGY: Feature = Feature(30);

    pub const PMU_CAPS: Feature = Feature(31);

    pub const SIMPLEPERF_FILE: Feature = Feature(128);

    pub const SIMPLEPERF_META_INFO: Feature = Feature(129);

    pub const SIMPLEPERF_DEBUG_UNWIND: Feature = Feature(130);

    pub const SIMPLEPERF_DEBUG_UNWIND_FILE: Feature = Feature(131);

    pub const SIMPLEPERF_FILE2: Feature = Feature(132);

    // The name that perf or simpleperf has for the feature, if it has one.
    pub fn name(self) -> Option<&'static str>
        ensures { named result ≡ name_of self.0 }
    {
        match self {
            Feature::TRACING_DATA => Some("TRACING_DATA"),
            Feature::BUILD_ID => Some("BUILD_ID"),
            Feature::HOSTNAME => Some("HOSTNAME"),
            Feature::OSRELEASE => Some("OSRELEASE"),
            Feature::VERSION => Some("VERSION"),
            Feature::ARCH => Some("ARCH"),
            Feature::NRCPUS => Some("NRCPUS"),
            Feature::CPUDESC => Some("CPUDESC"),
            Feature::CPUID => Some("CPUID"),
            Feature::TOTAL_MEM => Some("TOTAL_MEM"),
            Feature::CMDLINE => Some("CMDLINE"),
            Feature::EVENT_DESC => Some("EVENT_DESC"),
            Feature::CPU_TOPOLOGY => Some("CPU_TOPOLOGY"),
            Feature::NUMA_TOPOLOGY => Some("NUMA_TOPOLOGY"),
            Feature::BRANCH_STACK => Some("BRANCH_STACK"),
            Feature::PMU_MAPPINGS => Some("PMU_MAPPINGS"),
            Feature::GROUP_DESC => Some("GROUP_DESC"),
            Feature::AUXTRACE => Some("AUXTRACE"),
            Feature::STAT => Some("STAT"),
            Feature::CACHE => Some("CACHE"),
            Feature::SAMPLE_TIME => Some("SAMPLE_TIME"),
            Feature::MEM_TOPOLOGY => Some("MEM_TOPOLOGY"),
            Feature::CLOCKID => Some("CLOCKID"),
            Feature::DIR_FORMAT => Some("DIR_FORMAT"),
            Feature::BPF_PROG_INFO => Some("BPF_PROG_INFO"),
            Feature::BPF_BTF => Some("BPF_BTF"),
            Feature::COMPRESSED => Some("COMPRESSED"),
            Feature::CPU_PMU_CAPS => Some("CPU_PMU_CAPS"),
            Feature::CLOCK_DATA => Some("CLOCK_DATA"),
            Feature::HYBRID_TOPOLOGY => Some("HYBRID_TOPOLOGY"),
            Feature::PMU_CAPS => Some("PMU_CAPS"),
            Feature::SIMPLEPERF_FILE => Some("SIMPLEPERF_FILE"),
            Feature::SIMPLEPERF_META_INFO => Some("SIMPLEPERF_META_INFO"),
            Feature::SIMPLEPERF_DEBUG_UNWIND => Some("SIMPLEPERF_DEBUG_UNWIND"),
            Feature::SIMPLEPERF_DEBUG_UNWIND_FILE => Some("SIMPLEPERF_DEBUG_UNWIND_FILE"),
            Feature::SIMPLEPERF_FILE2 => Some("SIMPLEPERF_FILE2"),
            _ => None,
        }
    }
}
