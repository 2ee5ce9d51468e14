// Which file a path of a recording stands for. The kernel, its modules and the vdso go by several paths, so a path and the
// mode that the processor was in are taken to one key.
#![tactic(auto)]

pub mod cpu_mode;
pub mod detect;
pub mod dso_key;
pub mod kind;
pub mod least;
pub mod name;
mod order;
mod path;
pub mod write;
