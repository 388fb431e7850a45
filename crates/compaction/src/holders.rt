// Who has which data sector: a table that one pass over the files fills, searched from above; and where in its file a sector stands.
ghost use Rattle.std.specs.Prelude.{◌≡◌, true, ◌+◌, ◌≤◌, ◌*◌, eqb, length};
ghost use Rattle.numbers.specs.Numbers.{most_sectors, most_segments};
ghost use Rattle.lists.specs.Lists.{range, topmost, index};
ghost use Rattle.ownership.specs.Blocks.{segments, sectors_of, block_sound, placed, sound3};
ghost use Rattle.compaction.specs.Compaction.{data_of};
ghost use Rattle.compaction.specs.Code.Holders.{given, Holders, is_held};

use numbers::MOST_SECTORS;
use ownership::blocks::{Block, Segment, pairs};
use volume::directory::{Entry, contiguous, start, unused};
use volume::mount::Volume;

/// A byte a sector: the slot of the file whose data it holds, or the number of slots.
pub type Table = [u8; MOST_SECTORS];

// Gives n sectors from s on to slot k.
fn give_run(who: &mut Table, s: usize, n: usize, k: u8)
    requires { s + n ≤ most_sectors }
    ensures { who.new ≡ given k (range s n) who.old }
{
    who[s..s + n].fill(k);
}

// Gives it the segments of an access block.
fn give_block(who: &mut Table, f: &Block, t: usize, k: u8)
    requires { (t ≤ most_sectors) × (block_sound t f.now ≡ true) }
    ensures { who.new ≡ given k (sectors_of f.now) who.old }
{
    for pair in pairs(f) {
        let Segment { start, length } = Segment::of(pair);
        give_run(who, start, length, k);
    }
}

// Gives it the data sectors of an entry, if that is a sequential file's.
fn give_entry(who: &mut Table, v: &Volume<'_>, e: &Entry, k: u8)
    requires { placed v.now.img.now e.now ≡ true }
    ensures { who.new ≡ given k (data_of v.now.img.now e.now) who.old }
{
    if unused(e) || contiguous(e) {
        return;
    }
    give_block(who, v.sector(start(e)), v.p.t, k);
}

/// Fills the table: from the last slot down, so that of two slots with one sector the lower would stand. A sector without data gets the
/// number of slots.
pub fn fill_holders(who: &mut Table, v: &Volume<'_>)
    requires { sound3 v.now.img.now ≡ true }
    ensures { Holders v.now.img.now who.new }
{
    let slots = 8 * v.p.dirs;
    // Stays: `as`: there are 64 slots at most.
    who.fill(slots as u8);
    for k in (0..slots).rev() {
        give_entry(who, v, v.entry(k), k as u8);
    }
}

/// The highest sector below hi that has a slot, or 0.
pub(crate) fn highest(who: &Table, none: u8, hi: usize) -> usize
    requires { hi ≤ length who.now }
    ensures { result ≡ topmost (is_held who.now none) hi }
{
    for i in (0..hi).rev() {
        if who[i] != none {
            return i;
        }
    }
    0
}

/// The number that sector h has among those of an access block.
pub(crate) fn number_of(f: &Block, h: usize) -> usize
    requires { segments f.now ≤ most_segments }
    ensures { result ≡ index (eqb h) (sectors_of f.now) }
{
    let mut at = 0;
    for pair in pairs(f) {
        let Segment { start, length } = Segment::of(pair);
        if start <= h && h < start + length {
            return at + (h - start);
        }
        at += length;
    }
    at
}
