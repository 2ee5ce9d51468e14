// Writing into a lent buffer. What falls outside it is not written, and only counted: with no buffer at all, a writer
// counts its bytes.
#![tactic(auto)]

mod writer;

pub use writer::Writer;
