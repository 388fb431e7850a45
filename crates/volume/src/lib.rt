// What a volume's own sectors hold: names, the trailer, the SAT, the directory, and the layout of a formatted volume. Every function is
// proved equal to a definition of specs/.
#![tactic(auto)]

pub mod clashes;
pub mod directory;
pub mod format;
pub mod locate;
pub mod mount;
pub mod names;
pub mod quads;
pub mod sat;
pub mod search;
pub mod used;
