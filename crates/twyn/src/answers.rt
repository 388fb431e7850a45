// An answer as it is printed: the status table's number and the length, and what else it reports.
use compaction::Ending;
use desk::answers::{moved_of, status_of};
use desk::{Answer, Report};
use std::fmt;

/// An answer, as a line begins with it.
#[derive(Clone, Copy)]
pub(crate) struct Told(pub(crate) Answer);

// Why a compaction ended.
fn reason(why: Ending) -> &'static str {
    match why {
        Ending::Settled => "settled",
        Ending::QuotaUsed => "quota",
        Ending::SegmentNeeded => "segments",
    }
}

impl fmt::Display for Told {
    fn fmt<W: fmt::Write>(&self, f: &mut fmt::Formatter<W>) -> fmt::Result {
        let answer = self.0;
        write!(f, "{:02X} {}", status_of(answer), moved_of(answer))?;
        match answer {
            Ok(Report::Checked { sound: true, free }) => write!(f, " sound {free}"),
            // Of a volume that is not sound no sector is free.
            Ok(Report::Checked { sound: false, free }) => write!(f, " unsound {free}"),
            Ok(Report::Compacted { moved, ending }) => { write!(f, " {moved} {}", reason(ending)) }
            Ok(Report::Moved(_)) | Err(_) => Ok(()),
        }
    }
}
