// Answers as docs/RULES.md, "Answers", has them: the status number, and the length.
ghost use Rattle.std.specs.Prelude.{◌≡◌};
ghost use Rattle.work.specs.Refusals.{code};
ghost use Rattle.desk.specs.Answers.{status, moved, moved_by, accepts};

use crate::{Answer, Report};
use work::Refusal;

/// The refusal's number of the status table.
pub fn code_of(why: Refusal) -> u8
    ensures { result ≡ code why }
{
    why as u8
}

fn moved_by(r: Report) -> u32
    ensures { result ≡ moved_by r }
{
    match r {
        Report::Moved(n) => n,
        Report::Checked { .. } | Report::Compacted { .. } => 0,
    }
}

/// The answer's number of the status table.
pub fn status_of(a: Answer) -> u8
    ensures { result ≡ status a }
{
    match a {
        Ok(_) => 0x00,
        Err(why) => code_of(why),
    }
}

/// The answer's length.
pub fn moved_of(a: Answer) -> u32
    ensures { result ≡ moved a }
{
    match a {
        Ok(r) => moved_by(r),
        Err(_) => 0,
    }
}

/// Whether the call was carried out.
#[tactic(auto, unfolding(crate::specs::Answers::accepts))]
pub fn accepts(a: Answer) -> bool
    ensures { result ≡ accepts a }
{
    a.is_ok()
}
