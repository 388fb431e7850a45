// Closing up a volume: the highest data sector goes to the lowest free one, until none is lower, the quota is used or segments run out.
ghost use Rattle.std.specs.Prelude.{◌≡◌, true, false, ◌≤◌, eqb, is_ok};
ghost use Rattle.numbers.specs.Numbers.{most_quota};
ghost use Rattle.lists.specs.Lists.{index};
ghost use Rattle.volume.specs.Directory.{entry_at, contiguous};
ghost use Rattle.volume.specs.Code.Located.{Located};
ghost use Rattle.ownership.specs.Owners.{logical};
ghost use Rattle.files.specs.Files.{sound};
ghost use Rattle.files.specs.Code.Slots.{InUse};
ghost use Rattle.compaction.specs.Compaction.{closing, compacted};
ghost use Rattle.compaction.specs.Code.Going.{Tabled, NextStep, Advanced};

use crate::holders::{Table, fill_holders, highest, number_of};
use crate::{Compacted, Ending};
use lists::parts::sector_of;
use moves::relocation::relocate;
use numbers::MOST_SECTORS;
use ownership::blocks::NoSegment;
use volume::directory::{entry_of, start};
use volume::locate::Layout;
use volume::mount::Volume;
use volume::search::next_free;

// The number that sector h has in the sequential file of slot k.
fn number_in(img: &[u8], p: Layout, k: usize, h: usize) -> usize
    requires { InUse img.now p k × (contiguous (entry_at img.now k) ≡ false) }
    ensures { result ≡ index (eqb h) (logical img.now (entry_at img.now k)) }
{
    number_of(sector_of(img, start(entry_of(img, p, k))), h)
}

// A step: sector hi goes to lo, in the image and in the table. An error, and neither changes, if that takes a 63rd segment.
fn advance(
    img: &mut [u8],
    who: &mut Table,
    p: Layout,
    hi: usize,
    lo: usize,
) -> Result<(), NoSegment>
    requires { NextStep img.old p who.old hi lo }
    ensures { Advanced img.old p (is_ok result) img.new who.new }
{
    let b = who[hi];
    let k = usize::from(b);
    let i = number_in(img, p, k, hi);
    relocate(img, p, k, i, hi, lo)?;
    who[lo] = b;
    // Stays: `as`, here and below: there are 64 slots at most.
    who[hi] = (8 * p.dirs) as u8;
    Ok(())
}

// Steps until one of the three ends; a search goes on where the one before it found.
fn close_up(img: &mut [u8], who: &mut Table, p: Layout, quota: usize) -> Compacted
    requires { Tabled img.old p who.old }
    ensures { closing result.moved result.ending img.new ≡ compacted quota img.old }
{
    let none = (8 * p.dirs) as u8;
    let mut hi = p.t;
    let mut lo = 0;
    let mut moved = 0;
    // Stays: two bounds move towards one another, and the loop ends in three ways.
    let ending = loop {
        hi = highest(who, none, hi);
        lo = next_free(sector_of(img, p.sat), p.t, lo);
        if hi <= lo {
            break Ending::Settled;
        }
        if moved >= quota {
            break Ending::QuotaUsed;
        }
        if advance(img, who, p, hi, lo).is_err() {
            break Ending::SegmentNeeded;
        }
        moved += 1;
    };
    Compacted { moved, ending }
}

/// Closes the volume up, by at most `quota` sectors moved. One pass over the files says who has which sector; a step then costs its file's
/// segments.
pub fn compact(img: &mut [u8], p: Layout, quota: usize) -> Compacted
    requires { Located img.old p × (sound img.old ≡ true) × (quota ≤ most_quota) }
    ensures { closing result.moved result.ending img.new ≡ compacted quota img.old }
{
    // Stays: a room of fixed size, lent to what fills it: there is no heap here, and a table by value would be copied.
    let mut who = [0u8; MOST_SECTORS];
    fill_holders(&mut who, &Volume { img, p });
    close_up(img, &mut who, p, quota)
}
