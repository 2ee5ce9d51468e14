// What the feature sections of perf.data files say. The names of the modules are those of linux-perf-data.
#![tactic(auto)]

pub mod features;
pub mod perf_file;
pub mod string_list;
