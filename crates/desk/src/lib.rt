// The public face: the desk of sixteen logical units (LUNs), and the twelve calls as its methods: format, check, bring-up and compact
// (volumes), allocate, delete, assign, close, rewind, read, write, update. Each takes any image, any desk and any numbers, hands the desk
// back in its reply, and states one equation: answer, image, desk and buffer are those of `step` of specs/Calls.
#![tactic(auto)]

use compaction::Ending;
use luns::Lun;
use numbers::LUNS;
use work::Refusal;

pub mod answers;
pub mod assigning;
pub mod filing;
pub mod opening;
pub mod replies;
pub mod seats;
pub mod transfers;
pub mod volumes;

/// The sixteen LUNs.
#[derive(Clone, Copy)]
pub struct Desk {
    pub luns: [Lun; LUNS],
}

/// What a call that was carried out tells: the data bytes moved; check's verdict, with the free sectors; or the sectors that a compaction
/// moved, and why it ended.
#[derive(Clone, Copy)]
pub enum Report {
    Moved(u32),
    Checked { sound: bool, free: u32 },
    Compacted { moved: u32, ending: Ending },
}

/// What a call answers: what was done, or why it is refused.
pub type Answer = Result<Report, Refusal>;

/// What every call hands back: its answer, and the desk after it.
#[derive(Clone, Copy)]
pub struct Reply {
    pub answer: Answer,
    pub desk: Desk,
}
