// The carried facts of a store, written as a head has them.
#![tactic(auto)]

pub mod fact;
mod files;
mod items;
mod lines;
mod parts;
mod rows;
pub mod tables;
mod told;
