// Allocate and delete.
ghost use Rattle.std.specs.Prelude.{◌≡◌, [], length};
ghost use Rattle.volume.specs.Names.{user_of};
ghost use Rattle.files.specs.Code.Slots.{InUse};
ghost use Rattle.desk.specs.Desk.{state};
ghost use Rattle.desk.specs.Answers.{outcome};
ghost use Rattle.desk.specs.Calls.{Ensured, allocate, delete};
ghost use Rattle.desk.specs.Code.Left.{remove_left};

use crate::{Answer, Desk, Reply, Report};
use files::deletion;
use files::rights::has_right;
use luns::holding::is_held;
use numbers::LAST_USER;
use volume::locate::Layout;
use volume::mount::Volume;
use volume::names::user_of;
use work::finding::seek;
use work::{Refusal, making};

// Stays: caller, kind, sizes and code are any numbers, as C hands them over and as the definition `Call` of specs/Calls has them.
impl Desk {
    /// Makes a file of kind 0, contiguous, of this size, or of kind 1, sequential, of this record length, 0 for variable ones,
    /// with this read-protect code. Refuses a volume that is not sound or a desk that does not fit, then the caller, the descriptor, the
    /// kind, the numbers (a code for a file of user 0 among them), a caller without the right, a name that is taken, a full directory, and
    /// a volume without such a run.
    pub fn allocate(
        self,
        image: &mut [u8],
        caller: u32,
        desc: &[u8],
        kind: u32,
        size: u32,
        record: u32,
        read_code: u8,
    ) -> Reply
        ensures { Ensured (allocate caller desc.now kind size «record» read_code) (state image.old self)
            result.answer image.new result.desk [] }
    {
        let answer = self.try_allocate(image, caller, desc, kind, size, record, read_code);
        self.reply(answer)
    }

    fn try_allocate(
        &self,
        image: &mut [u8],
        caller: u32,
        desc: &[u8],
        kind: u32,
        size: u32,
        record: u32,
        read_code: u8,
    ) -> Answer
        ensures { Ensured (allocate caller desc.now kind size «record» read_code) (state image.old self.now)
            result image.new self.now [] }
    {
        let p = self.begin(image, caller <= LAST_USER)?;
        making::allocate(
            image,
            p,
            caller,
            desc,
            // Stays: `as`, here and below: usize has no From<u32>, and it holds them all.
            kind as usize,
            size as usize,
            record as usize,
            read_code,
        )?;
        Ok(Report::Moved(0))
    }

    // The file in a slot, which this descriptor names.
    fn remove(&self, image: &mut [u8], p: Layout, caller: u32, desc: &[u8], slot: usize) -> Answer
        requires { InUse image.old p slot × (length desc.now ≡ 20) }
        ensures { outcome result image.new self.now [] ≡ remove_left (state image.old self.now) caller
            (user_of desc.now) slot }
    {
        if !has_right(caller, user_of(desc) as u32) {
            return Err(Refusal::NoRight);
        }
        if is_held(&self.luns, slot as u32) {
            return Err(Refusal::InUse);
        }
        deletion::delete(image, p, slot);
        Ok(Report::Moved(0))
    }

    /// Deletes a file of the caller's, or any if the caller is user 0. Refuses a volume that is not sound or a desk that does not
    /// fit, then the caller, the descriptor, a file that is not there, a caller without the right, and a file that some LUN holds.
    pub fn delete(self, image: &mut [u8], caller: u32, desc: &[u8]) -> Reply
        ensures { Ensured (delete caller desc.now) (state image.old self)
            result.answer image.new result.desk [] }
    {
        let answer = self.try_delete(image, caller, desc);
        self.reply(answer)
    }

    fn try_delete(&self, image: &mut [u8], caller: u32, desc: &[u8]) -> Answer
        ensures { Ensured (delete caller desc.now) (state image.old self.now)
            result image.new self.now [] }
    {
        let p = self.begin(image, caller <= LAST_USER)?;
        let slot = seek(&Volume { img: image, p }, desc)?;
        self.remove(image, p, caller, desc, slot)
    }
}
