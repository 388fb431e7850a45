// The desk's LUNs by number: read, replaced, and whose they are.
ghost use Rattle.std.specs.Prelude.{◌≡◌, ◌<◌};
ghost use Rattle.numbers.specs.Numbers.{lun_count};
ghost use Rattle.desk.specs.Desk.{empty_desk, lun_at, put_lun, mine, spare};

use crate::Desk;
use deskbytes::{DESK_BYTES, unpack};
use luns::Lun;
use numbers::{LAST_USER, LUNS};

impl Desk {
    /// The desk with every LUN free, out of its bytes: an array of constants would be taken apart by the compiler, and every function that
    /// hands a desk on would then move it field by field.
    pub fn empty() -> Desk
        ensures { result ≡ empty_desk }
    {
        let bytes = [0u8; DESK_BYTES];
        Desk {
            luns: unpack(&bytes),
        }
    }

    /// One LUN.
    pub fn lun(&self, lun: u32) -> Lun
        requires { lun < lun_count }
        ensures { result ≡ lun_at self.now lun }
    {
        // Stays: `as`, here and below: usize has no From<u32>, and it holds them all.
        self.luns[lun as usize]
    }

    /// The desk with one LUN replaced.
    pub fn put(mut self, lun: u32, u: Lun) -> Desk
        requires { lun < lun_count }
        ensures { result ≡ put_lun self lun u }
    {
        self.set_lun(lun, u);
        self
    }

    /// Replaces one LUN of a desk that is lent.
    pub(crate) fn set_lun(&mut self, lun: u32, u: Lun)
        requires { lun < lun_count }
        ensures { self.new ≡ put_lun self.old lun u }
    {
        self.luns[lun as usize] = u;
    }

    /// Whether the caller is in range and holds this LUN.
    #[tactic(auto, using(lists::proofs::Steps::bool_steps, std::proofs::lemmas::Bool::Decides::nat_tests), unfolding(crate::specs::Desk::mine, crate::specs::Desk::lun_at, luns::specs::Luns::free_lun))]
    pub fn mine(&self, caller: u32, lun: u32) -> bool
        ensures { result ≡ mine self.now caller lun }
    {
        let at = lun as usize;
        caller <= LAST_USER && at < LUNS && self.luns[at].held && self.luns[at].user == caller
    }

    /// Whether the caller is in range and this LUN free.
    #[tactic(auto, using(lists::proofs::Steps::bool_steps, std::proofs::lemmas::Bool::Decides::nat_tests), unfolding(crate::specs::Desk::spare, crate::specs::Desk::lun_at, luns::specs::Luns::free_lun))]
    pub fn spare(&self, caller: u32, lun: u32) -> bool
        ensures { result ≡ spare self.now caller lun }
    {
        let at = lun as usize;
        caller <= LAST_USER && at < LUNS && !self.luns[at].held
    }
}
