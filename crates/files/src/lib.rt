// Layer two: files and records over the sectors of `ownership`. A volume is judged sound or not, of any bytes; a file's records are
// found, read and replaced across sector borders. Every function is proved equal to a definition of specs/.
#![tactic(auto)]

pub mod allocation;
pub mod appending;
pub mod check;
pub mod counting;
pub mod deletion;
pub mod extent;
pub mod map;
pub mod replace;
pub mod rights;
pub mod taking;
