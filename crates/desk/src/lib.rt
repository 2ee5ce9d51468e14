// A shelf behind lines of text: what the program intake does with each.
#![tactic(auto)]

pub mod answer;
pub mod desk;
pub mod lines;
pub mod recording;
pub mod reply;
pub mod request;
