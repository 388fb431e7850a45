// Format, which makes a volume of any bytes, check, which judges any bytes, bring-up of a volume from before there were record counts, and
// compact, which closes a volume up.
ghost use Rattle.std.specs.Prelude.{[]};
ghost use Rattle.desk.specs.Desk.{state};
ghost use Rattle.desk.specs.Calls.{Ensured, format, check, bring_up, compact};

use crate::{Answer, Desk, Reply, Report};
use compaction::closing;
use files::check;
use numbers::MOST_QUOTA;
use work::{Refusal, bringing, formatting};

// Stays: directory sectors and quota are any numbers, as C hands them over and as the definition `Call` of specs/Calls has them.
impl Desk {
    /// Makes the whole image an empty volume with this ID of four bytes and 1 to 8 directory sectors, and answers an empty desk.
    /// Refuses a length that is not 256 times 16 to 2,048, a number of directory sectors out of range, and a bad ID.
    pub fn format(mut self, image: &mut [u8], id: &[u8], dirs: u32) -> Reply
        ensures { Ensured (format id.now dirs) (state image.old self)
            result.answer image.new result.desk [] }
    {
        let answer = self.try_format(image, id, dirs);
        self.reply(answer)
    }

    fn try_format(&mut self, image: &mut [u8], id: &[u8], dirs: u32) -> Answer
        ensures { Ensured (format id.now dirs) (state image.old self.old)
            result image.new self.new [] }
    {
        // Stays: `as`, here and below: usize has no From<u32>, and what is narrowed is proved to fit.
        formatting::format(image, id, dirs as usize)?;
        *self = Desk::empty();
        Ok(Report::Moved(0))
    }

    /// Answers whether the image is a sound volume, and its free sectors, 0 if it is not. Never refuses.
    pub fn check(self, image: &[u8]) -> Reply
        ensures { Ensured check (state image.now self) result.answer image.now result.desk [] }
    {
        let verdict = check::check(image);
        let free = verdict.free as u32;
        self.reply(Ok(Report::Checked {
            sound: verdict.sound,
            free,
        }))
    }

    /// Gives each sequential entry of a volume from before there were record counts its count, and changes nothing else. Looks at no desk.
    /// Refuses a volume that is not sound by the rule of before, under which those bytes are zero.
    pub fn bring_up(self, image: &mut [u8]) -> Reply
        ensures { Ensured bring_up (state image.old self) result.answer image.new result.desk [] }
    {
        let answer = self.try_bring_up(image);
        self.reply(answer)
    }

    fn try_bring_up(&self, image: &mut [u8]) -> Answer
        ensures { Ensured bring_up (state image.old self.now) result image.new self.now [] }
    {
        bringing::bring_up(image)?;
        Ok(Report::Moved(0))
    }

    fn try_compact(&self, image: &mut [u8], quota: u32) -> Answer
        ensures { Ensured (compact quota) (state image.old self.now)
            result image.new self.now [] }
    {
        let p = self.begin(image, true)?;
        let most = quota as usize;
        if MOST_QUOTA < most {
            return Err(Refusal::OutOfRange);
        }
        let closing = closing::compact(image, p, most);
        Ok(Report::Compacted {
            moved: closing.moved as u32,
            ending: closing.ending,
        })
    }

    /// Closes the volume up: the highest-numbered data sector of any sequential file goes to the lowest free sector, as long as that one is
    /// lower, at most `quota` times. Reports the sectors moved and why it ended. What is read of the files stays, and so does the desk.
    /// Refuses a volume that is not sound or a desk that does not fit, then a quota above 2,048. It asks for no caller.
    pub fn compact(self, image: &mut [u8], quota: u32) -> Reply
        ensures { Ensured (compact quota) (state image.old self) result.answer image.new result.desk [] }
    {
        let answer = self.try_compact(image, quota);
        self.reply(answer)
    }
}
