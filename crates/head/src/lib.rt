// The head of a store: one settled byte form of its facts.
#![tactic(auto)]

mod fact;
pub mod from_image;
pub mod head;
