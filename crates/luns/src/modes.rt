// Modes: what each reads, writes and excludes, and which two stand beside each other.
#![tactic(auto, using(lists::proofs::Steps::bool_steps), unfolding(crate::specs::Modes::mode_of, crate::specs::Modes::shuts_out, crate::specs::Modes::compatible, crate::specs::Code::Numbers::mode_or))]

ghost use Rattle.std.specs.Prelude.{◌≡◌};
ghost use Rattle.luns.specs.Code.Numbers.{mode_or};
ghost use Rattle.luns.specs.Modes.{mode_of, mode_number, reads, writes, excludes_reading, excludes_writing, shuts_out, compatible};

use crate::Mode;
use std::convert::TryFrom;

/// The error of a number that names no mode: one above 7.
#[derive(Clone, Copy, Debug, PartialEq, Eq)]
pub struct UnknownMode;

impl TryFrom<u32> for Mode {
    type Error = UnknownMode;

    ghost try_from_gives = { λ k r. r ≡ mode_or k };

    fn try_from(k: u32) -> Result<Mode, UnknownMode> {
        match k {
            0 => Ok(Mode::Pr),
            1 => Ok(Mode::Er),
            2 => Ok(Mode::Pw),
            3 => Ok(Mode::Ew),
            4 => Ok(Mode::Prpw),
            5 => Ok(Mode::Prew),
            6 => Ok(Mode::Erpw),
            7 => Ok(Mode::Erew),
            _ => Err(UnknownMode),
        }
    }
}

impl Mode {
    /// The mode of a house number, 0 to 7; above 7, which calls refuse first, the last one.
    pub fn numbered(k: u32) -> Mode
        ensures { result ≡ mode_of k }
    {
        Mode::try_from(k).unwrap_or(Mode::Erew)
    }

    /// The mode's house number.
    pub fn number(self) -> u8
        ensures { result ≡ mode_number self }
    {
        self as u8
    }

    /// Whether it reads.
    pub fn reads(self) -> bool
        ensures { result ≡ reads self }
    {
        !matches!(self, Mode::Pw | Mode::Ew)
    }

    /// Whether it writes.
    pub fn writes(self) -> bool
        ensures { result ≡ writes self }
    {
        !matches!(self, Mode::Pr | Mode::Er)
    }

    /// Whether it shuts other readers out.
    pub fn excludes_reading(self) -> bool
        ensures { result ≡ excludes_reading self }
    {
        matches!(self, Mode::Er | Mode::Erpw | Mode::Erew)
    }

    /// Whether it shuts other writers out.
    pub fn excludes_writing(self) -> bool
        ensures { result ≡ excludes_writing self }
    {
        matches!(self, Mode::Ew | Mode::Prew | Mode::Erew)
    }

    /// Whether this mode excludes what the other does.
    pub fn shuts_out(self, other: Mode) -> bool
        ensures { result ≡ shuts_out self other }
    {
        self.excludes_reading() && other.reads() || self.excludes_writing() && other.writes()
    }

    /// Whether two assignments of one file may stand in these modes.
    pub fn compatible(self, other: Mode) -> bool
        ensures { result ≡ compatible self other }
    {
        !(self.shuts_out(other) || other.shuts_out(self))
    }
}
