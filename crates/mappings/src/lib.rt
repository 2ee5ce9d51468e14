// Features that map keys to values, read into lent rows of an ordered table.
#![tactic(auto)]

pub mod laws;
mod mapping;
pub mod meta_info;
pub mod pmu_mappings;
