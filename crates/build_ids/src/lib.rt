// The build ids of a recording: which build of each file it saw.
#![tactic(auto)]

pub mod build_id_event;
mod build_id_events;
pub mod builds;
pub mod perf_file;
