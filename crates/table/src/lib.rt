// An ordered table for every kind of key, in a lent slice of rows that is changed in place.
#![tactic(auto)]

pub mod builder;
pub mod fill;
pub mod kind;
pub mod laws;
mod place;
pub mod row;
