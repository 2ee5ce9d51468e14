// The ordered table as another crate uses it: callers from the first row to the last, a kind of its own, and cases.
#![tactic(auto)]

pub mod caller;
#[cfg(test)]
mod cases;
pub mod named;
pub mod reader;
