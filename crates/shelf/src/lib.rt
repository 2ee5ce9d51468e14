// The shelf: it groups recordings by their heads, and the law of all that can be done with it.
#![tactic(auto)]

pub mod client;
pub mod laws;
pub mod shelf;
#[cfg(test)]
mod tests;
