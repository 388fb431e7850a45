// Layer one: access blocks, and who owns which sector. Every function is proved equal to a definition of specs/.
#![tactic(auto)]

pub mod blocks;
pub mod judge;
pub mod owners;
