// Read, write and update: the opening that they share, the work, and the LUN's new place.
ghost use Rattle.desk.specs.Desk.{state};
ghost use Rattle.desk.specs.Calls.{Ensured, read, write, update};

use crate::{Answer, Desk, Reply};
use work::{reading, updating, writing};

// Stays: caller, LUN, selector and number are any numbers, as C hands them over and as the definition `Call` of specs/Calls has them.
impl Desk {
    /// Reads sectors or a record into the buffer: Next, Current, Prior or Random, 0 to 3. `formatted`: a variable record is handed over
    /// as the text that it stands for; other files ignore it. Refuses a volume that is not sound or a desk that does not fit, then the
    /// LUN, the mode or selector, a buffer that sectors do not fill, a target past the end, and a buffer shorter than the record or its
    /// text.
    pub fn read(
        mut self,
        image: &[u8],
        caller: u32,
        lun: u32,
        sel: u32,
        num: u32,
        formatted: bool,
        buffer: &mut [u8],
    ) -> Reply
        ensures { Ensured (read caller lun sel num formatted buffer.old) (state image.now self)
            result.answer image.now result.desk buffer.new }
    {
        let answer = self.try_read(image, caller, lun, sel, num, formatted, buffer);
        self.reply(answer)
    }

    // Stays: three times the same three lines, since the works differ in what they lend: a buffer to fill, an image to change.
    fn try_read(
        &mut self,
        image: &[u8],
        caller: u32,
        lun: u32,
        sel: u32,
        num: u32,
        formatted: bool,
        buffer: &mut [u8],
    ) -> Answer
        ensures { Ensured (read caller lun sel num formatted buffer.old) (state image.now self.old)
            result image.now self.new buffer.new }
    {
        let a = self.open(image, caller, lun, sel, num, false)?;
        let done = reading::read(image, a.p, a.slot, a.i, formatted, buffer)?;
        Ok(self.settle(lun, done))
    }

    /// Writes sectors, or appends a record: Next, Current, Prior or Random, 0 to 3. `formatted`: the data are a text, which a variable
    /// file stores with its spaces packed; other files ignore it. Refuses a volume that is not sound or a desk that does not fit, then
    /// the LUN, the mode or selector, the length or a text's byte of $80 or more, a target past the end, a record that is there, too few
    /// free sectors, and a 63rd segment.
    pub fn write(
        mut self,
        image: &mut [u8],
        caller: u32,
        lun: u32,
        sel: u32,
        num: u32,
        formatted: bool,
        data: &[u8],
    ) -> Reply
        ensures { Ensured (write caller lun sel num formatted «data».now) (state image.old self)
            result.answer image.new result.desk «data».now }
    {
        let answer = self.try_write(image, caller, lun, sel, num, formatted, data);
        self.reply(answer)
    }

    fn try_write(
        &mut self,
        image: &mut [u8],
        caller: u32,
        lun: u32,
        sel: u32,
        num: u32,
        formatted: bool,
        data: &[u8],
    ) -> Answer
        ensures { Ensured (write caller lun sel num formatted «data».now) (state image.old self.old)
            result image.new self.new «data».now }
    {
        let a = self.open(image, caller, lun, sel, num, true)?;
        let done = writing::write(image, a.p, a.slot, a.i, formatted, data)?;
        Ok(self.settle(lun, done))
    }

    /// Replaces a record by one that is stored in the same length: Next, Current, Prior or Random, 0 to 3. `formatted` as in a write.
    /// Refuses a volume that is not sound or a desk that does not fit, then the LUN, the mode or selector, a contiguous file, the length
    /// or a text's byte of $80 or more, a target past the end, and another length.
    pub fn update(
        mut self,
        image: &mut [u8],
        caller: u32,
        lun: u32,
        sel: u32,
        num: u32,
        formatted: bool,
        data: &[u8],
    ) -> Reply
        ensures { Ensured (update caller lun sel num formatted «data».now) (state image.old self)
            result.answer image.new result.desk «data».now }
    {
        let answer = self.try_update(image, caller, lun, sel, num, formatted, data);
        self.reply(answer)
    }

    fn try_update(
        &mut self,
        image: &mut [u8],
        caller: u32,
        lun: u32,
        sel: u32,
        num: u32,
        formatted: bool,
        data: &[u8],
    ) -> Answer
        ensures { Ensured (update caller lun sel num formatted «data».now) (state image.old self.old)
            result image.new self.new «data».now }
    {
        let a = self.open(image, caller, lun, sel, num, true)?;
        let done = updating::update(image, a.p, a.slot, a.i, formatted, data)?;
        Ok(self.settle(lun, done))
    }
}
