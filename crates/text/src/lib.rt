// Texts, and the bytes that stand for them when runs of spaces are packed.
#![tactic(auto)]

pub mod packing;
pub mod unpacking;

/// A byte from this one on stands for spaces: as many as it is more.
pub const MARK: u8 = 0x80;

/// The most spaces that one byte stands for.
pub const MOST_SPACES: usize = 127;

/// The byte that stands for the most.
pub const FULL: u8 = 0xFF;
