// One sector of a sequential file moved to a free one. Every function is proved equal to a definition of specs/.
#![tactic(auto)]

pub mod relocation;
pub mod rerouting;
