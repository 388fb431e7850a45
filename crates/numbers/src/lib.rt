// The house numbers as the code has them; `specs/Numbers` has the same as the definitions have them.
#![tactic(auto)]

/// Sectors of a volume: from this many ..
pub const FEWEST_SECTORS: usize = 16;

/// .. to this many.
pub const MOST_SECTORS: usize = 2048;

/// Directory sectors, of eight entries each.
pub const MOST_DIRS: usize = 8;

/// Files of a volume.
pub const MOST_FILES: usize = 8 * MOST_DIRS;

/// Segments of a file.
pub const MOST_SEGMENTS: usize = 62;

/// Data bytes of a record.
pub const RECORD_LIMIT: usize = 4096;

/// The most new sectors of one append: a count word and the longest data, from a sector's start on.
pub const MOST_NEW: usize = (2 + RECORD_LIMIT + 255) / 256;

/// Sectors of a contiguous transfer.
pub const MOST_MOVED: usize = 16;

/// Logical units.
pub const LUNS: usize = 16;

/// The highest user number.
pub const LAST_USER: u32 = 65533;

/// The highest quota of one compaction, in sectors.
pub const MOST_QUOTA: usize = 2048;
