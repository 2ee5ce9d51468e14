// The facts that a head carries: what they are read as, and how a head has them.
#![tactic(auto)]

pub mod carried;
