// A volume as one value: its bytes, with where things are in them.
ghost use Rattle.std.specs.Prelude.{◌≡◌, ◌<◌, false, true, MatchOption};
ghost use Rattle.lists.specs.Parts.{sector};
ghost use Rattle.volume.specs.Volume.{layout_of, sat, sound1};
ghost use Rattle.volume.specs.Code.Located.{Located};

use crate::locate::{Layout, locate};
use lists::parts::{Sector, sector_of};

/// A volume whose point 1 of soundness holds, as it is read.
#[derive(Clone, Copy)]
pub struct Volume<'a> {
    pub img: &'a [u8],
    pub p: Layout,
    ghost located: { Located img.now p },
}

/// The volume that any bytes are, if point 1 of soundness holds of them.
#[tactic(auto, using(crate::proofs::Located::located, crate::proofs::Located::nowhere))]
pub fn mount(img: &[u8]) -> Option<Volume<'_>>
    ensures { MatchOption result (sound1 img.now ≡ false) (λ v. (sound1 img.now ≡ true) × (v.img.now ≡ img.now) × (v.p ≡ layout_of img.now)) }
{
    let p = locate(img)?;
    Some(Volume { img, p })
}

impl<'a> Volume<'a> {
    /// Sector s.
    pub fn sector(&self, s: usize) -> &'a Sector
        requires { s < self.now.p.t }
        ensures { result.now ≡ sector s self.now.img.now }
    {
        sector_of(self.img, s)
    }

    /// The sector allocation table.
    #[tactic(auto, unfolding(crate::specs::Volume::sat))]
    pub fn table(&self) -> &'a Sector
        ensures { result.now ≡ sat self.now.img.now }
    {
        self.sector(self.p.sat)
    }
}
