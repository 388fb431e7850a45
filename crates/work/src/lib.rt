// The work of each call on the volume, with no desk: it takes image, layout and numbers, tries the rules of the call's own in their
// order, and then makes the change. Every function is proved equal to a definition of specs/.
#![tactic(auto)]

ghost use Rattle.std.specs.Prelude.{◌≡◌};
ghost use Rattle.work.specs.Code.Deeds.{refusal_of};

use files::replace::ReplaceError;

pub mod bringing;
mod codings;
pub mod finding;
pub mod formatting;
pub mod lengths;
pub mod making;
pub mod reading;
pub mod texts;
pub mod updating;
pub mod writing;

/// Why a call is refused, by its number of the status table.
#[derive(Clone, Copy, Debug, PartialEq, Eq)]
pub enum Refusal {
    UnknownType = 0x02,
    BadLun = 0x03,
    WrongCode = 0x07,
    NoRight = 0x0B,
    InUse = 0x0D,
    NoFile = 0x17,
    BadRequest = 0x82,
    BadLength = 0x84,
    PastEnd = 0xC2,
    OutOfRange = 0x60,
    OtherLength = 0x61,
    Exists = 0x62,
    NoRoom = 0x63,
    BadDescriptor = 0x64,
    NoSegment = 0x65,
    NameTaken = 0x66,
    DirectoryFull = 0x67,
    NotSound = 0x6F,
}

/// What was moved: so many data bytes, from that record or sector on, so many of them.
#[derive(Clone, Copy, Debug, Default, PartialEq, Eq)]
pub struct Transfer {
    pub bytes: u32,
    pub from: u32,
    pub count: u32,
}

impl From<ReplaceError> for Refusal {
    ghost from_gives = { λ why result. result ≡ refusal_of why };

    fn from(why: ReplaceError) -> Refusal {
        match why {
            ReplaceError::PastEnd => Refusal::PastEnd,
            ReplaceError::OtherLength => Refusal::OtherLength,
        }
    }
}
