// The directory: where an entry and its fields stand; entries judged, searched, written.
ghost use Rattle.lists.specs.Lists.{index};
ghost use Rattle.std.specs.Prelude.{position, ◌≡◌, ◌+◌, ◌*◌, ◌<◌, ◌≤◌, length, [], ◌∷◌, ◌++◌};
ghost use Rattle.volume.specs.Directory.{entry_at, unused, kind, contiguous, owner, read_code, code_allowed, record_length, start, size};
ghost use Rattle.volume.specs.Directory.{record_count, counted_as};
ghost use Rattle.volume.specs.Directory.{fields, entry, extent_good, valid, entries, named};
ghost use Rattle.volume.specs.Code.Located.{Located, entry_byte, EntryIn};
ghost use Rattle.numbers.specs.Numbers.{most_sectors, most_dirs};
ghost use Rattle.lists.specs.Parts.{part, put, bytes2, blanks};
ghost use Rattle.volume.specs.Code.Found.{found_of};

use crate::locate::Layout;
use crate::mount::Volume;
use crate::names::descriptor;
use lists::parts::{all_zero, clear, copy_in, long_at, put_long, put_word, word_at};
use numbers::RECORD_LIMIT;

/// A directory entry, 32 bytes.
pub type Entry = [u8; 32];

// Where the entry in slot k starts.
fn entry_at(p: Layout, k: usize) -> usize
    requires { (p.dir ≤ most_sectors) × (k < 8 * most_dirs) }
    ensures { result ≡ entry_byte p k }
{
    256 * p.dir + 32 * k
}

/// The entry in slot k.
pub fn entry_of(img: &[u8], p: Layout, k: usize) -> &Entry
    requires { Located img.now p × (k < 8 * p.dirs) }
    ensures { result.now ≡ entry_at img.now k }
{
    Volume { img, p }.entry(k)
}

/// Whether an entry is unused: all its bytes are zero.
pub fn unused(e: &[u8]) -> bool
    ensures { result ≡ unused e.now }
{
    all_zero(e)
}

// Stays: the fields as `usize` with a bound beside it: they count and place sectors, in sums that a u16 does not hold.
/// The type: 0 contiguous, 1 sequential.
pub fn kind(e: &Entry) -> usize
    ensures { (result ≡ kind e.now) × (result < 256) }
{
    usize::from(e[1])
}

/// Whether the file is contiguous.
#[tactic(auto, unfolding(crate::specs::Directory::contiguous))]
pub fn contiguous(e: &Entry) -> bool
    ensures { result ≡ contiguous e.now }
{
    kind(e) == 0
}

/// The user whose file it is.
pub fn owner(e: &Entry) -> usize
    ensures { (result ≡ owner e.now) × (result < 65536) }
{
    word_at(e, 2)
}

/// The read-protect code.
pub fn read_code(e: &Entry) -> u8
    ensures { result ≡ read_code e.now }
{
    e[23]
}

/// The length of each record of a sequential file, 0 if they are variable.
pub fn record_length(e: &Entry) -> usize
    ensures { (result ≡ record_length e.now) × (result < 65536) }
{
    word_at(e, 24)
}

/// The first sector, or the access block's.
pub fn start(e: &Entry) -> usize
    ensures { (result ≡ start e.now) × (result < 65536) }
{
    word_at(e, 26)
}

/// The sectors of a contiguous file.
pub fn size(e: &Entry) -> usize
    ensures { (result ≡ size e.now) × (result < 65536) }
{
    word_at(e, 28)
}

/// The record count of a sequential file.
pub fn record_count(e: &Entry) -> usize
    ensures { (result ≡ record_count e.now) × (result < 4294967296) }
{
    long_at(e, 28)
}

// A contiguous file has sectors, zeros after their number and no record length; a sequential one may have a record length.
#[tactic(auto, using(lists::proofs::Steps::bool_steps, std::proofs::lemmas::Bool::Decides::nat_tests))]
fn extent_good(e: &Entry) -> bool
    ensures { result ≡ extent_good e.now }
{
    let long = record_length(e);
    if contiguous(e) {
        1 <= size(e) && word_at(e, 30) == 0 && long == 0
    } else {
        long <= RECORD_LIMIT
    }
}

/// Whether a file of this user may have this read-protect code: user 0's have none.
#[tactic(auto, using(lists::proofs::Steps::bool_steps, std::proofs::lemmas::Bool::Decides::nat_tests), unfolding(crate::specs::Directory::code_allowed))]
pub fn code_allowed(user: usize, read_code: u8) -> bool
    ensures { result ≡ code_allowed user read_code }
{
    user != 0 || read_code == 0
}

/// A used entry's fields are in range.
#[tactic(auto, using(lists::proofs::Steps::bool_steps, std::proofs::lemmas::Bool::Decides::nat_tests), unfolding(crate::specs::Directory::valid, crate::specs::Directory::described, lists::specs::Parts::part))]
pub fn valid(e: &Entry) -> bool
    ensures { result ≡ valid e.now }
{
    e[0] == 1
        && kind(e) <= 1
        && descriptor(&e[2..22])
        && e[22] == 0
        && code_allowed(owner(e), read_code(e))
        && extent_good(e)
}

// Is it the entry of that name?
#[tactic(auto, using(lists::proofs::Equal::equal_rules), unfolding(crate::specs::Directory::named, crate::specs::Directory::described, lists::specs::Parts::part))]
pub(crate) fn is_named(e: &Entry, desc: &[u8]) -> bool
    ensures { result ≡ named desc.now e.now }
{
    desc == &e[2..22]
}

// The lowest slot of that name: sector by sector and entry by entry, up to the first match.
#[tactic(auto, using(crate::proofs::NamesSought::passed, crate::proofs::NamesSought::here, crate::proofs::NamesSought::at_end))]
fn first_named(entries: &[Entry], sectors: usize, desc: &[u8]) -> Option<usize>
    requires { length entries.now ≡ 8 * sectors }
    ensures { result ≡ position (named desc.now) entries.now }
{
    let mut found = None;
    'sectors: for j in 0..sectors {
        for k in 0..8 {
            let slot = 8 * j + k;
            if is_named(&entries[slot], desc) {
                found = Some(slot);
                break 'sectors;
            }
        }
    }
    found
}

impl<'a> Volume<'a> {
    /// The entries of the directory, slot by slot.
    pub fn entries(&self) -> &'a [Entry]
        ensures { result.now ≡ entries self.now.img.now }
    {
        let p = self.p;
        self.img[256 * p.dir..256 * (p.dir + p.dirs)]
            .as_chunks::<32>()
            .0
    }

    /// The entry in slot k.
    pub fn entry(&self, k: usize) -> &'a Entry
        requires { k < 8 * self.now.p.dirs }
        ensures { result.now ≡ entry_at self.now.img.now k }
    {
        &self.entries()[k]
    }

    /// The lowest slot of that name.
    pub fn find(&self, desc: &[u8]) -> Option<usize>
        ensures { result ≡ found_of (8 * self.now.p.dirs) (index (named desc.now) (entries self.now.img.now)) }
    {
        first_named(self.entries(), self.p.dirs, desc)
    }

    /// The lowest unused slot.
    pub fn lowest_unused(&self) -> Option<usize>
        ensures { result ≡ found_of (8 * self.now.p.dirs) (index unused (entries self.now.img.now)) }
    {
        self.entries().iter().position(|e| unused(e))
    }
}

// What stands after the descriptor.
fn put_numbers(part: &mut [u8], read_code: u8, len: usize, s: usize, n: usize)
    requires { (length part.old ≡ 32) × (len < 65536) × (s < 65536) × (n < 65536) }
    ensures { part.new
        ≡ put 22 (0 ∷ read_code ∷ (bytes2 len ++ (bytes2 s ++ (bytes2 n ++ (0 ∷ 0 ∷ []))))) part.old }
{
    put_word(part, 22, usize::from(read_code));
    put_word(part, 24, len);
    put_word(part, 26, s);
    put_word(part, 28, n);
    put_word(part, 30, 0);
}

// Stays: a part as a slice, since `as_chunks_mut` says nothing of what the image is after a write.
fn put_fields(
    part: &mut [u8],
    desc: &[u8],
    kind: usize,
    read_code: u8,
    len: usize,
    s: usize,
    n: usize,
)
    requires { (length part.old ≡ 32) × (length desc.now ≡ 20) × (kind ≤ 1) × (len < 65536) × (s < 65536) × (n < 65536) }
    ensures { part.new ≡ entry (fields kind desc.now read_code len s n) }
{
    put_word(part, 0, 256 + kind);
    copy_in(&mut part[2..22], desc);
    put_numbers(part, read_code, len, s, n);
}

/// Writes an entry of these fields in slot k: the kind, the read-protect code, the record length, the first sector and the number of
/// sectors.
#[tactic(auto, unfolding(lists::specs::Parts::part, lists::specs::Parts::put))]
pub fn put_entry(
    img: &mut [u8],
    p: Layout,
    k: usize,
    desc: &[u8],
    kind: usize,
    read_code: u8,
    len: usize,
    s: usize,
    n: usize,
)
    requires { EntryIn img.old p k × (length desc.now ≡ 20) × (kind ≤ 1) × (len < 65536) × (s < 65536) × (n < 65536) }
    ensures { img.new
        ≡ put (entry_byte p k) (entry (fields kind desc.now read_code len s n)) img.old }
{
    let at = entry_at(p, k);
    put_fields(&mut img[at..at + 32], desc, kind, read_code, len, s, n);
}

/// Gives the entry in slot k this record count, if it is a sequential file's; any other stays.
pub fn put_count(img: &mut [u8], p: Layout, k: usize, n: usize)
    requires { EntryIn img.old p k × (n < 4294967296) }
    ensures { img.new
        ≡ put (entry_byte p k) (counted_as n (part (entry_byte p k) 32 img.old)) img.old }
{
    let e = &img.as_chunks::<32>().0[8 * p.dir + k];
    if unused(e) || contiguous(e) {
        return;
    }
    let at = entry_at(p, k);
    put_long(&mut img[at..at + 32], 28, n);
}

/// Makes the entry in slot k an unused one.
#[tactic(auto, unfolding(lists::specs::Parts::part, lists::specs::Parts::put, lists::specs::Parts::blanks))]
pub fn clear_entry(img: &mut [u8], p: Layout, k: usize)
    requires { EntryIn img.old p k }
    ensures { img.new ≡ put (entry_byte p k) (blanks 32) img.old }
{
    let at = entry_at(p, k);
    clear(&mut img[at..at + 32]);
}
