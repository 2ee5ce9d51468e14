// Feature sections that are numbers of a fixed length. The names of the modules are those of linux-perf-data.
#![tactic(auto)]

pub mod feature_sections;
pub mod perf_file;
