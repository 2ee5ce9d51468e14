// What the sections of simpleperf recordings say: files with their symbols.
#![tactic(auto)]

pub mod dex;
pub mod file;
pub mod info;
pub mod list;
pub mod questions;
mod reader;
pub mod symbol;
pub mod tables;
pub mod types;
