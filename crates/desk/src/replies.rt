// Replies: a refusal, or what was done; a call's answer with the desk after it; and what a transfer leaves of its LUN.
ghost use Rattle.std.specs.Prelude.{◌≡◌, ◌<◌};
ghost use Rattle.numbers.specs.Numbers.{lun_count};
ghost use Rattle.luns.specs.Luns.{moved_to};
ghost use Rattle.luns.specs.declared.Place.TheVariants.{At};
ghost use Rattle.desk.specs.Desk.{lun_at, put_lun};
ghost use Rattle.desk.specs.Code.Opened.{refused_by, done_by};
ghost use Rattle.desk.specs.declared.Report.TheVariants.{Moved};

use crate::{Answer, Desk, Reply, Report};
use luns::Place;
use work::{Refusal, Transfer};

impl Reply {
    /// A refusal, with the desk as it was.
    pub fn refused(why: Refusal, desk: Desk) -> Reply
        ensures { result ≡ refused_by why desk }
    {
        Reply {
            answer: Err(why),
            desk,
        }
    }

    /// Done, with its report and the desk after it.
    pub fn done(report: Report, desk: Desk) -> Reply
        ensures { result ≡ done_by report desk }
    {
        Reply {
            answer: Ok(report),
            desk,
        }
    }
}

impl Desk {
    /// This answer, with the desk.
    pub(crate) fn reply(self, answer: Answer) -> Reply
        ensures answer { result.answer ≡ answer }
        ensures desk { result.desk ≡ self }
    {
        Reply { answer, desk: self }
    }

    // A transfer: the LUN moves to what was moved. The place is written here, and `set_lun` is for the calls that seat, free or rewind a LUN.
    pub(crate) fn settle(&mut self, lun: u32, t: Transfer) -> Report
        requires { lun < lun_count }
        ensures report { result ≡ Moved t.bytes }
        ensures desk { self.new ≡ put_lun self.old lun (moved_to (At t.from t.count) (lun_at self.old lun)) }
    {
        let (i, n) = (t.from, t.count);
        // Stays: `as`: usize has no From<u32>, and it holds them all.
        let at = lun as usize;
        self.luns[at] = self.luns[at].moved_to(Place::At { i, n });
        Report::Moved(t.bytes)
    }
}
