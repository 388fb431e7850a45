// The slots in use, listed once a call: what judges the volume goes by that list, and an empty directory sector is passed as a whole.
ghost use Rattle.std.specs.Prelude.{[], ◌≡◌, ◌*◌, ◌<◌, ◌≤◌, get_or, length};
ghost use Rattle.numbers.specs.Numbers.{most_dirs};
ghost use Rattle.lists.specs.Lists.{◌or◌, all};
ghost use Rattle.lists.specs.Parts.{over};
ghost use Rattle.volume.specs.Directory.{entries, sound2, unused, valid};
ghost use Rattle.volume.specs.Code.Used.{used_slots, used_entries, Gap};

use crate::directory::{Entry, unused, valid};
use crate::mount::Volume;
use lists::parts::all_zero;

/// The slots in use of a volume, in the order of the directory.
#[derive(Clone, Copy)]
pub struct Used<'a, 'b> {
    pub volume: Volume<'a>,
    pub slots: &'b [u8],
    ghost listed: { slots.now ≡ used_slots volume.img.now },
}

impl<'a> Used<'a, '_> {
    /// The i-th entry in use.
    pub fn entry(&self, i: usize) -> &'a Entry
        requires { i < length self.now.slots.now }
        ensures { result.now ≡ get_or (used_entries self.now.volume.img.now) i [] }
    {
        self.volume.entry(usize::from(self.slots[i]))
    }

    /// Is every entry unused or valid? Those in use are looked at.
    pub fn are_valid(&self) -> bool
        ensures { result ≡ all (λ e. unused e or valid e) (entries self.now.volume.img.now) }
    {
        (0..self.slots.len()).all(|i| valid(self.entry(i)))
    }

    /// Point 2 of soundness.
    #[tactic(auto, using(lists::proofs::Steps::bool_steps), unfolding(crate::specs::Directory::sound2))]
    pub fn is_directory_sound(&self) -> bool
        ensures { result ≡ sound2 self.now.volume.img.now }
    {
        self.are_valid() && self.names_differ()
    }
}

impl Volume<'_> {
    // How many slots from slot k on are known to be unused: a sector's eight, one, or none.
    fn gap(&self, k: usize) -> usize
        requires { k < 8 * self.now.p.dirs }
        ensures { Gap self.now.img.now k result }
    {
        if k % 8 == 0 && all_zero(self.sector(self.p.dir + k / 8)) {
            return 8;
        }
        usize::from(unused(self.entry(k)))
    }

    // Stays: a room that the caller lends and a count, since there is no heap here and the room is filled to a length found on the way.
    /// Lists the slots in use at the front of `used`, and answers how many they are.
    pub fn list_used(&self, used: &mut [u8]) -> usize
        requires { 8 * most_dirs ≤ length used.old }
        ensures length { result ≡ length (used_slots self.now.img.now) }
        ensures slots { used.new ≡ over (used_slots self.now.img.now) used.old }
    {
        let end = 8 * self.p.dirs;
        let mut n = 0;
        let mut k = 0;
        // Stays: k goes on by 1 or by 8.
        while k < end {
            let pass = self.gap(k);
            if pass == 0 {
                used[n] = k as u8;
                n += 1;
                k += 1;
            } else {
                k += pass;
            }
        }
        n
    }
}
