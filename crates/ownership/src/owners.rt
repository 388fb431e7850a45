// Who owns which sector: no sector twice, and the SAT marks exactly the owned ones.
ghost use Rattle.std.specs.Prelude.{◌≡◌, true, false, ◌+◌, ◌≤◌, ◌<◌, ◌*◌, ◌%◌, length, is_ok, replicate, ◌∷◌};
ghost use Rattle.numbers.specs.Numbers.{most_sectors};
ghost use Rattle.lists.specs.Lists.{range, flat};
ghost use Rattle.ownership.specs.Owners.{owned, all_owned, sound5};
ghost use Rattle.ownership.specs.Code.Claims.{Claims, fresh};
ghost use Rattle.ownership.specs.Blocks.{sectors_of, block_sound, placed, sound3};
ghost use Rattle.volume.specs.Directory.{entries, entry_at, unused};
ghost use Rattle.volume.specs.Code.Located.{Located, LaidOut};
ghost use Rattle.volume.specs.Volume.{system_of, sat};
ghost use Rattle.volume.specs.Sat.{free, with_bits, put_sat};
ghost use Rattle.ownership.specs.Code.Held.{held_by};
ghost use Rattle.lists.specs.Parts.{sector, put_sector};

use crate::blocks::{Block, Segment, pairs};
use lists::parts::{all_zero, at_sector, sector_of};
use volume::directory::{Entry, contiguous, entry_of, size, start, unused};
use volume::locate::Layout;
use volume::mount::Volume;
use volume::sat::{Mark, same_table, set_bit, set_run, set_run_in};
use volume::search::free_count;
use volume::used::Used;

// A sector that is claimed has an owner already.
#[derive(Clone, Copy, Debug, PartialEq, Eq)]
struct Clash;

// Stays: by byte and place, since all bits of a byte are claimed at once.
// Claims n sectors from s on, all of one byte of the marks.
fn claim_bits(marks: &mut [u8], s: usize, n: usize) -> Result<(), Clash>
    requires { (length marks.old ≡ 256) × (s + n ≤ most_sectors) × (s % 8 + n ≤ 8) }
    ensures { Claims (range s n) marks.old (is_ok result) marks.new }
{
    if n == 0 {
        return Ok(());
    }
    let q = s / 8;
    let k = s % 8;
    let b = marks[q];
    if (b << k) >> (8 - n) != 0 {
        return Err(Clash);
    }
    marks[q] = b + ((255 << (8 - n)) >> k);
    Ok(())
}

// Claims n sectors from s on: the bytes that they fill at once, and those of one byte at once. Inlined, since a call for each segment is an eighth
// of the check of a volume whose files lie scattered.
#[inline(always)]
fn claim_run(marks: &mut [u8], s: usize, n: usize) -> Result<(), Clash>
    requires { (length marks.old ≡ 256) × (s + n ≤ most_sectors) }
    ensures { Claims (range s n) marks.old (is_ok result) marks.new }
{
    let end = s + n;
    let a = s.div_ceil(8);
    let e = end / 8;
    if e < a {
        return claim_bits(marks, s, n);
    }
    claim_bits(marks, s, 8 * a - s)?;
    if !all_zero(&marks[a..e]) {
        return Err(Clash);
    }
    marks[a..e].fill(255);
    claim_bits(marks, 8 * e, end - 8 * e)
}

// Claims the segments of an access block.
fn claim_block(marks: &mut [u8], f: &Block, t: usize) -> Result<(), Clash>
    requires { (length marks.old ≡ 256) × (t ≤ most_sectors) × (block_sound t f.now ≡ true) }
    ensures { Claims (sectors_of f.now) marks.old (is_ok result) marks.new }
{
    for pair in pairs(f) {
        let Segment { start, length } = Segment::of(pair);
        claim_run(marks, start, length)?;
    }
    Ok(())
}

// Claims what an entry in use owns.
fn claim_entry(marks: &mut [u8], v: &Volume<'_>, e: &Entry) -> Result<(), Clash>
    requires { (length marks.old ≡ 256) × (placed v.now.img.now e.now ≡ true) × (unused e.now ≡ false) }
    ensures { Claims (owned v.now.img.now e.now) marks.old (is_ok result) marks.new }
{
    let s = start(e);
    if contiguous(e) {
        return claim_run(marks, s, size(e));
    }
    claim_run(marks, s, 1)?;
    claim_block(marks, v.sector(s), v.p.t)
}

// Claims what the entries of the directory own.
fn claim_entries(marks: &mut [u8], u: &Used<'_, '_>) -> Result<(), Clash>
    requires { (length marks.old ≡ 256) × (sound3 u.now.volume.img.now ≡ true) }
    ensures { Claims (flat (owned u.now.volume.img.now) (entries u.now.volume.img.now)) marks.old (is_ok result) marks.new }
{
    // Stays: by index, since `entry` takes the rank of an entry in use.
    for i in 0..u.slots.len() {
        claim_entry(marks, &u.volume, u.entry(i))?;
    }
    Ok(())
}

// Claims the system sectors.
fn claim_system(marks: &mut [u8], p: Layout) -> Result<(), Clash>
    requires { (length marks.old ≡ 256) × LaidOut p }
    ensures { Claims (system_of p) marks.old (is_ok result) marks.new }
{
    claim_run(marks, 0, 1)?;
    claim_run(marks, p.sat, 1)?;
    claim_run(marks, p.t - 1, 1)?;
    claim_run(marks, p.dir, p.dirs)
}

// Claims all that is owned, over marks of which only the first t are freed.
fn claim_all(marks: &mut [u8], u: &Used<'_, '_>) -> Result<(), Clash>
    requires { (length marks.old ≡ 256) × (marks.old ≡ replicate 256 255) × (sound3 u.now.volume.img.now ≡ true) }
    ensures { Claims (all_owned u.now.volume.img.now) (fresh u.now.volume.p.t) (is_ok result) marks.new }
{
    set_run(marks, 0, u.volume.p.t, Mark::Free);
    claim_system(marks, u.volume.p)?;
    claim_entries(marks, u)
}

/// Point 5 of soundness, in one pass over the owners. The marks have the SAT's form, and are compared with it as a whole.
pub fn owners_sound(u: &Used<'_, '_>) -> bool
    requires { sound3 u.now.volume.img.now ≡ true }
    ensures { result ≡ sound5 u.now.volume.img.now }
{
    let mut marks = [255u8; 256];
    claim_all(&mut marks, u).is_ok() && same_table(u.volume.table(), &marks)
}

/// How many sectors are free?
pub fn free_sectors(v: &Volume<'_>) -> usize
    ensures { result ≡ free v.now.img.now }
{
    free_count(v.table(), v.p.t)
}

/// What a slot of the directory holds.
#[derive(Clone, Copy, Debug, PartialEq, Eq)]
pub enum Held {
    Nothing,
    Run { start: usize, size: usize },
    Chain { at: usize },
}

#[tactic(auto, unfolding(crate::specs::Code::Held::held_by))]
fn held_by(e: &Entry) -> Held
    ensures { result ≡ held_by e.now }
{
    if unused(e) {
        Held::Nothing
    } else if contiguous(e) {
        Held::Run {
            start: start(e),
            size: size(e),
        }
    } else {
        Held::Chain { at: start(e) }
    }
}

// Frees the segments of an access block.
fn free_segments(sat: &mut [u8], f: &Block, t: usize)
    requires { (length sat.old ≡ 256) × (t ≤ most_sectors) × (block_sound t f.now ≡ true) }
    ensures { sat.new ≡ with_bits 0 sat.old (sectors_of f.now) }
{
    for pair in pairs(f) {
        let Segment { start, length } = Segment::of(pair);
        set_run(sat, start, length, Mark::Free);
    }
}

// Frees an access block at sector `at`, a copy of which is f, and its segments.
#[tactic(auto, unfolding(volume::specs::Sat::with_bits))]
fn free_block(sat: &mut [u8], at: usize, f: &Block, t: usize)
    requires { (length sat.old ≡ 256) × (at < t) × (t ≤ most_sectors) × (block_sound t f.now ≡ true) }
    ensures { sat.new ≡ with_bits 0 sat.old (at ∷ sectors_of f.now) }
{
    set_bit(sat, at, Mark::Free);
    free_segments(sat, f, t);
}

// The same in an image. The block is copied first: the table that is written lies in the same image.
fn free_chain(img: &mut [u8], sat: usize, at: usize, t: usize)
    requires { (length img.old ≡ 256 * t) × (sat < t) × (at < t) × (t ≤ most_sectors) × (block_sound t (sector at img.old) ≡ true) }
    ensures { img.new ≡ put_sector sat
        (with_bits 0 (sector sat img.old) (at ∷ sectors_of (sector at img.old))) img.old }
{
    let block = *sector_of(img, at);
    at_sector(img, sat, |table| free_block(table, at, &block, t));
}

/// Frees what the entry in slot k owns.
pub fn free_owned(img: &mut [u8], p: Layout, k: usize)
    requires { Located img.old p × (sound3 img.old ≡ true) × (k < 8 * p.dirs) }
    ensures { img.new ≡ put_sat img.old
        (with_bits 0 (sat img.old) (owned img.old (entry_at img.old k))) img.old }
{
    match held_by(entry_of(img, p, k)) {
        Held::Nothing => {}
        Held::Run { start, size } => set_run_in(img, p.sat, start, size, Mark::Free),
        Held::Chain { at } => free_chain(img, p.sat, at, p.t),
    }
}
