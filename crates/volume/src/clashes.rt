// No two entries in use have one name. The filenames are compared first, each as one number, all of them at once: where no two are the
// same, no name is looked at further.
ghost use Rattle.std.specs.Prelude.{not, [], ◌≡◌, ◌+◌, ◌*◌, ◌<◌, ◌≤◌, length, drop, get_or};
ghost use Rattle.numbers.specs.Numbers.{most_dirs};
ghost use Rattle.lists.specs.Lists.{all, among};
ghost use Rattle.lists.specs.Parts.{over};
ghost use Rattle.volume.specs.Directory.{entries, described, clashes, names_differ};
ghost use Rattle.volume.specs.Code.Used.{used_entries, file_number, file_numbers};

use crate::directory::{Entry, is_named};
use crate::used::Used;
use lists::parts::long_at;
use numbers::MOST_FILES;

// The descriptor in an entry.
#[tactic(auto, unfolding(crate::specs::Directory::described, lists::specs::Parts::part))]
fn described(e: &Entry) -> &[u8]
    ensures { (result.now ≡ described e.now) × (length result.now ≡ 20) }
{
    &e[2..22]
}

// The filename of a descriptor, as one number.
#[tactic(auto, unfolding(crate::specs::Code::Used::file_number))]
fn file_number(d: &[u8]) -> usize
    requires { length d.now ≡ 20 }
    ensures { result ≡ file_number d.now }
{
    4294967296 * long_at(d, 10) + long_at(d, 14)
}

// Is a number in the list? All are looked at, so that the compiler looks at many at once.
fn occurs(numbers: &[usize], x: usize) -> bool
    ensures { result ≡ among x numbers.now }
{
    let mut found = false;
    for n in numbers {
        found |= x == *n;
    }
    found
}

impl Used<'_, '_> {
    // The numbers of the entries in use, at the front of `numbers`.
    fn number_all(&self, numbers: &mut [usize])
        requires { length self.now.slots.now ≤ length numbers.old }
        ensures { numbers.new ≡ over (file_numbers self.now.volume.img.now) numbers.old }
    {
        // Stays: by index, since no law tells what a list holds after a walk of `iter_mut` over its front.
        for i in 0..self.slots.len() {
            numbers[i] = file_number(described(self.entry(i)));
        }
    }

    // No later entry in use has the name of the i-th one.
    fn is_alone(&self, i: usize) -> bool
        requires { i < length self.now.slots.now }
        ensures { result ≡ all (λ d. not (clashes (get_or (used_entries self.now.volume.img.now) i []) d))
            (drop (i + 1) (used_entries self.now.volume.img.now)) }
    {
        let name = described(self.entry(i));
        (i + 1..self.slots.len()).all(|j| !is_named(self.entry(j), name))
    }

    // The same, where `numbers` has the filenames of the entries in use.
    fn is_sole(&self, numbers: &[usize], i: usize) -> bool
        requires numbers { numbers.now ≡ file_numbers self.now.volume.img.now }
        requires room { length numbers.now ≡ length self.now.slots.now }
        requires few { length self.now.slots.now ≤ 8 * most_dirs }
        requires rank { i < length self.now.slots.now }
        ensures { result ≡ all (λ d. not (clashes (get_or (used_entries self.now.volume.img.now) i []) d))
            (drop (i + 1) (used_entries self.now.volume.img.now)) }
    {
        !occurs(&numbers[i + 1..], numbers[i]) || self.is_alone(i)
    }

    /// Do the names of the entries in use differ?
    pub fn names_differ(&self) -> bool
        ensures { result ≡ names_differ (entries self.now.volume.img.now) }
    {
        let n = self.slots.len();
        // Stays: a fixed room of the most that there can be, since there is no heap here.
        let mut room = [0usize; MOST_FILES];
        self.number_all(&mut room);
        let numbers = &room[..n];
        (0..n).all(|i| self.is_sole(numbers, i))
    }
}
