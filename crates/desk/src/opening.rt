// The first rules of calls, tried once for all of them: volume and desk are judged, then caller and LUN, and of transfers mode and
// selector.
ghost use Rattle.std.specs.Prelude.{◌≡◌};
ghost use Rattle.desk.specs.Desk.{state};
ghost use Rattle.desk.specs.Code.Opened.{begun_of, suits, aimed_at, opened_of};

use crate::Desk;
use files::check::locate_sound;
use luns::fits::fits;
use luns::places::{placeless, target};
use luns::{Lun, Mode};
use volume::locate::Layout;
use volume::mount::Volume;
use work::Refusal;

/// What a transfer aims at: the volume's layout, the directory slot of its file, and the record or sector.
#[derive(Clone, Copy)]
pub struct Aim {
    pub p: Layout,
    pub slot: usize,
    pub i: usize,
}

// Whether a mode reads, or writes.
fn suits(mode: Mode, writing: bool) -> bool
    ensures { result ≡ suits writing mode }
{
    if writing { mode.writes() } else { mode.reads() }
}

// Of the LUN u on a volume of layout p: $82, or what the selector names.
#[tactic(auto, using(lists::proofs::Steps::bool_steps), unfolding(crate::specs::Code::Opened::aimed_at, work::specs::Refusals::ruled))]
fn aim_at(p: Layout, u: Lun, sel: u32, num: u32, writing: bool) -> Result<Aim, Refusal>
    ensures { result ≡ aimed_at p u sel num writing }
{
    if !suits(u.mode, writing) || placeless(sel, u.place) {
        return Err(Refusal::BadRequest);
    }
    Ok(Aim {
        p,
        // Stays: `as`: usize has no From<u32>, and it holds them all.
        slot: u.slot as usize,
        i: target(sel, num, u.place),
    })
}

impl Desk {
    // Judges the whole volume and the desk, and then refuses a caller or a LUN that is not fine.
    pub(crate) fn begin(&self, image: &[u8], fine: bool) -> Result<Layout, Refusal>
        ensures { result ≡ begun_of (state image.now self.now) fine }
    {
        let Some(p) = locate_sound(image) else {
            return Err(Refusal::NotSound);
        };
        if !fits(&Volume { img: image, p }, &self.luns) {
            return Err(Refusal::NotSound);
        }
        if !fine {
            return Err(Refusal::BadLun);
        }
        Ok(p)
    }

    // What all transfers share.
    pub(crate) fn open(
        &self,
        image: &[u8],
        caller: u32,
        lun: u32,
        sel: u32,
        num: u32,
        writing: bool,
    ) -> Result<Aim, Refusal>
        ensures { result ≡ opened_of writing (state image.now self.now) caller lun sel num }
    {
        let p = self.begin(image, self.mine(caller, lun))?;
        aim_at(p, self.lun(lun), sel, num, writing)
    }
}
