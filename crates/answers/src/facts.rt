// Answers that are numbers, and that a section is there.
ghost use Rattle.answers.specs.Texts.{nr_cpus_text, total_mem_text, sample_time_range_text, clock_frequency_text, compression_info_text, clock_data_text, present_text};

use crate::told::Told;
use fixed_facts::feature_sections::{
    ClockData, ClockFrequency, CompressionInfo, NrCpus, SampleTimeRange, TotalMem,
};
use std::alloc::AllocError;

impl Told for NrCpus {
    ghost text = { nr_cpus_text };

    fn write(self, out: &mut String) -> Result<(), AllocError> {
        write!(
            out,
            "numbers {} {}",
            self.nr_cpus_available, self.nr_cpus_online
        )
    }
}

impl Told for TotalMem {
    ghost text = { total_mem_text };

    fn write(self, out: &mut String) -> Result<(), AllocError> {
        write!(out, "numbers {}", self.kilobytes)
    }
}

impl Told for SampleTimeRange {
    ghost text = { sample_time_range_text };

    fn write(self, out: &mut String) -> Result<(), AllocError> {
        write!(
            out,
            "numbers {} {}",
            self.first_sample_time, self.last_sample_time
        )
    }
}

impl Told for ClockFrequency {
    ghost text = { clock_frequency_text };

    fn write(self, out: &mut String) -> Result<(), AllocError> {
        write!(out, "numbers {}", self.ns_per_tick)
    }
}

impl Told for CompressionInfo {
    ghost text = { compression_info_text };

    fn write(self, out: &mut String) -> Result<(), AllocError> {
        write!(
            out,
            "numbers {} {} {} {} {}",
            self.version, self.type_, self.level, self.ratio, self.mmap_len
        )
    }
}

impl Told for ClockData {
    ghost text = { clock_data_text };

    fn write(self, out: &mut String) -> Result<(), AllocError> {
        write!(
            out,
            "numbers {} {} {}",
            self.clockid, self.wall_clock_ns, self.clockid_time_ns
        )
    }
}

// A section that tells by being there.
#[derive(Clone, Copy)]
pub struct Present;

impl Told for Present {
    ghost text = { λ _. present_text };

    fn write(self, out: &mut String) -> Result<(), AllocError> {
        write!(out, "present")
    }
}
