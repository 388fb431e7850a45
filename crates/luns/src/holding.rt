// What LUNs hold: one LUN free, moved or beside another, and some LUN of sixteen.
#![tactic(auto, using(lists::proofs::Steps::bool_steps, crate::proofs::Steps::all_as), unfolding(crate::specs::Luns::free_lun, crate::specs::Luns::moved_to, crate::specs::Luns::agree))]

ghost use Rattle.std.specs.Prelude.{◌≡◌, drop};
ghost use Rattle.std.specs.List.{list_all};
ghost use Rattle.lists.specs.Lists.{all};
ghost use Rattle.luns.specs.Luns.{free_lun, moved_to, agree, is_held};

use crate::{Lun, Mode, Place};
use numbers::LUNS;

impl Lun {
    /// A free LUN.
    pub fn free() -> Lun
        ensures { result ≡ free_lun }
    {
        Lun {
            held: false,
            user: 0,
            slot: 0,
            mode: Mode::Pr,
            offered: 0,
            place: Place::Fresh,
        }
    }

    /// The same assignment at another place.
    pub fn moved_to(self, place: Place) -> Lun
        ensures { result ≡ moved_to place self }
    {
        Lun { place, ..self }
    }

    /// Whether two LUNs may stand beside each other: not both held on one file in modes that clash.
    pub fn agrees(self, other: Lun) -> bool
        ensures { result ≡ agree self other }
    {
        !(self.held && other.held && self.slot == other.slot) || self.mode.compatible(other.mode)
    }

    // Whether it agrees with each of these.
    pub(crate) fn agrees_with(self, others: &[Lun]) -> bool
        ensures { result ≡ list_all (agree self) others.now }
    {
        others.iter().all(|v| self.agrees(*v))
    }

    /// Whether it agrees with each LUN from a number on.
    pub fn agrees_from(self, luns: &[Lun; LUNS], from: usize) -> bool
        ensures { result ≡ all (agree self) (drop from luns.now) }
    {
        self.agrees_with(&luns[from.min(LUNS)..])
    }
}

/// Whether some LUN holds this directory slot: one in EREW, which agrees with no mode, would clash there. So the one loop over LUNs
/// serves for this too, and the compiler does not take a caller's desk apart into its fields for another.
pub fn is_held(luns: &[Lun; LUNS], slot: u32) -> bool
    ensures { result ≡ is_held luns.now slot }
{
    let probe = Lun {
        held: true,
        user: 0,
        slot: slot,
        mode: Mode::Erew,
        offered: 0,
        place: Place::Fresh,
    };
    !probe.agrees_with(luns)
}
