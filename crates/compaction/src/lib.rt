// Closing up a volume, one sector after the other. Every function is proved equal to a definition of specs/.
#![tactic(auto)]

pub mod closing;
pub mod holders;

/// Why a compaction ended: no free sector lies below a data sector of a sequential file; the quota is used; the next sector's file would
/// need a 63rd segment.
#[derive(Clone, Copy, Debug, PartialEq, Eq, Hash)]
pub enum Ending {
    Settled,
    QuotaUsed,
    SegmentNeeded,
}

/// The sectors that a compaction moved, and why it ended.
#[derive(Clone, Copy, Debug, PartialEq, Eq)]
pub struct Compacted {
    pub moved: usize,
    pub ending: Ending,
}
