// Assign, close and rewind: a free LUN takes a file, a held one is freed or made Fresh.
ghost use Rattle.std.specs.Prelude.{◌≡◌, [], ◌*◌, ◌<◌};
ghost use Rattle.numbers.specs.Numbers.{lun_count};
ghost use Rattle.volume.specs.Directory.{entry_at};
ghost use Rattle.volume.specs.Code.Located.{Located};
ghost use Rattle.files.specs.Code.Slots.{InUse};
ghost use Rattle.desk.specs.Desk.{state};
ghost use Rattle.desk.specs.Answers.{outcome};
ghost use Rattle.desk.specs.Calls.{Ensured, assign, close, rewind, start_of, seat_of};
ghost use Rattle.desk.specs.Code.Left.{seat_left};

use crate::{Answer, Desk, Reply, Report};
use files::extent::extent_of;
use files::rights::has_right;
use luns::fits::reads_by_right;
use luns::{Lun, Mode, Place};
use std::convert::TryFrom;
use volume::locate::Layout;
use volume::mount::Volume;
use volume::names::user_of;
use work::Refusal;
use work::finding::seek;

// Fresh, or for a writer at the end the last record or sector.
#[tactic(auto, using(lists::proofs::Steps::bool_steps), unfolding(crate::specs::Calls::start_of))]
fn start_of(image: &[u8], p: Layout, slot: usize, mode: Mode, at_end: bool) -> Place
    requires { InUse image.now p slot }
    ensures { result ≡ start_of image.now (entry_at image.now slot) mode at_end }
{
    if !(at_end && mode.writes()) {
        return Place::Fresh;
    }
    let n = extent_of(image, p, slot);
    if n == 0 {
        return Place::Fresh;
    }
    // Stays: `as`, here and below: the numbers fit, as is proved, and u32 has no From<usize>.
    let last = (n - 1) as u32;
    Place::At { i: last, n: 1 }
}

// The LUN that an assignment makes.
fn seat_of(
    image: &[u8],
    p: Layout,
    caller: u32,
    slot: usize,
    mode: Mode,
    at_end: bool,
    offered: u8,
) -> Lun
    requires { InUse image.now p slot }
    ensures { result ≡ seat_of image.now caller slot mode at_end offered }
{
    let place = start_of(image, p, slot, mode, at_end);
    Lun {
        held: true,
        user: caller,
        slot: slot as u32,
        mode,
        offered,
        place,
    }
}

// Stays: caller, LUN and mode are any numbers, as C hands them over and as the definition `Call` of specs/Calls has them.
impl Desk {
    // The right to read, the right to write, and modes that agree: then the LUN is taken.
    #[tactic(auto, using(lists::proofs::Steps::bool_steps), unfolding(crate::specs::Code::Left::seat_left, crate::specs::Calls::seat_rules, crate::specs::Calls::quietly, crate::specs::Answers::judged, work::specs::Refusals::ruled))]
    fn seat(&mut self, image: &[u8], p: Layout, caller: u32, owner: u32, lun: u32, u: Lun) -> Answer
        requires { Located image.now p × (u.slot < 8 * p.dirs) × (lun < lun_count) }
        ensures { outcome result image.now self.new []
            ≡ seat_left (state image.now self.old) caller owner lun u }
    {
        if !reads_by_right(&Volume { img: image, p }, u) {
            return Err(Refusal::WrongCode);
        }
        if u.mode.writes() && !has_right(caller, owner) || !u.agrees_from(&self.luns, 0) {
            return Err(Refusal::NoRight);
        }
        self.set_lun(lun, u);
        Ok(Report::Moved(0))
    }

    /// Gives a free LUN to a file, in a mode 0 to 7, at its start or for a writer at its end; the LUN keeps the code offered. Refuses a
    /// volume that is not sound or a desk that does not fit, then the LUN, the mode, the descriptor, a file that is not there, a reading
    /// mode without the right to read, and a mode without the right or in clash.
    pub fn assign(
        mut self,
        image: &[u8],
        caller: u32,
        lun: u32,
        desc: &[u8],
        mode: u32,
        at_end: bool,
        offered: u8,
    ) -> Reply
        ensures { Ensured (assign caller lun desc.now mode at_end offered) (state image.now self)
            result.answer image.now result.desk [] }
    {
        let answer = self.try_assign(image, caller, lun, desc, mode, at_end, offered);
        self.reply(answer)
    }

    fn try_assign(
        &mut self,
        image: &[u8],
        caller: u32,
        lun: u32,
        desc: &[u8],
        mode: u32,
        at_end: bool,
        offered: u8,
    ) -> Answer
        ensures { Ensured (assign caller lun desc.now mode at_end offered) (state image.now self.old)
            result image.now self.new [] }
    {
        let p = self.begin(image, self.spare(caller, lun))?;
        let Ok(mode) = Mode::try_from(mode) else {
            return Err(Refusal::UnknownType);
        };
        let slot = seek(&Volume { img: image, p }, desc)?;
        let owner = user_of(desc) as u32;
        let u = seat_of(image, p, caller, slot, mode, at_end, offered);
        self.seat(image, p, caller, owner, lun, u)
    }

    /// Frees a LUN. Refuses a volume that is not sound or a desk that does not fit it, then a LUN that is not the caller's.
    pub fn close(mut self, image: &[u8], caller: u32, lun: u32) -> Reply
        ensures { Ensured (close caller lun) (state image.now self)
            result.answer image.now result.desk [] }
    {
        let answer = self.try_close(image, caller, lun);
        self.reply(answer)
    }

    fn try_close(&mut self, image: &[u8], caller: u32, lun: u32) -> Answer
        ensures { Ensured (close caller lun) (state image.now self.old)
            result image.now self.new [] }
    {
        self.begin(image, self.mine(caller, lun))?;
        self.set_lun(lun, Lun::free());
        Ok(Report::Moved(0))
    }

    /// Makes a LUN's place Fresh. Refuses as close does.
    pub fn rewind(mut self, image: &[u8], caller: u32, lun: u32) -> Reply
        ensures { Ensured (rewind caller lun) (state image.now self)
            result.answer image.now result.desk [] }
    {
        let answer = self.try_rewind(image, caller, lun);
        self.reply(answer)
    }

    fn try_rewind(&mut self, image: &[u8], caller: u32, lun: u32) -> Answer
        ensures { Ensured (rewind caller lun) (state image.now self.old)
            result image.now self.new [] }
    {
        self.begin(image, self.mine(caller, lun))?;
        self.set_lun(lun, self.lun(lun).moved_to(Place::Fresh));
        Ok(Report::Moved(0))
    }
}
