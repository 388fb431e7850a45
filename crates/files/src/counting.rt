// Bring-up: a volume from before there were record counts is judged by the rule of before, and each sequential entry gets its count.
ghost use Rattle.std.specs.Prelude.{if◌then◌else◌, ◌≡◌, true, false, ℕ, ◌*◌, ◌≤◌, ◌<◌, length, get_or, is_ok};
ghost use Rattle.lists.specs.Lists.{all, distinct};
ghost use Rattle.volume.specs.Directory.{unused, contiguous, start, entries, entry_at};
ghost use Rattle.volume.specs.Code.Located.{Located};
ghost use Rattle.ownership.specs.Blocks.{sound3};
ghost use Rattle.ownership.specs.Owners.{all_owned};
ghost use Rattle.files.specs.Code.Opens.{Opens};
ghost use Rattle.files.specs.Code.Verdict.{count_before, file_before, records_before};
ghost use Rattle.files.specs.Files.{sound_before};
ghost use Rattle.files.specs.Changes.{brought_up};

use crate::check::stream_count;
use numbers::MOST_FILES;
use ownership::judge::judge;
use volume::directory::{
    Entry, contiguous, entry_of, put_count, record_count, record_length, start, unused,
};
use volume::locate::Layout;

// How many records an entry's file has, if it is sound by the rule of before.
fn count_before(img: &[u8], e: &Entry) -> Option<usize>
    requires { unused e.now ≡ false → contiguous e.now ≡ false → Opens img.now (start e.now) }
    ensures { result ≡ count_before img.now e.now }
{
    if unused(e) || contiguous(e) {
        return Some(0);
    }
    if record_count(e) != 0 {
        return None;
    }
    stream_count(img, start(e), record_length(e))
}

/// Why a volume is not brought up: it is not sound by the rule of before there were record counts.
#[derive(Clone, Copy, Debug, PartialEq, Eq, Hash)]
pub struct NotSound;

// If all files are sound by the rule of before, `counts` has at its front how many records each has.
fn count_all(img: &[u8], p: Layout, counts: &mut [usize]) -> Result<(), NotSound>
    requires { Located img.now p × (sound3 img.now ≡ true) × (distinct (all_owned img.now) ≡ true)
        × (8 * p.dirs ≤ length counts.old) }
    ensures { (is_ok result ≡ all (file_before img.now) (entries img.now))
        × (is_ok result ≡ true → (k : ℕ) → k < 8 * p.dirs
        → get_or counts.new k 0 ≡ records_before img.now (entry_at img.now k)) }
{
    for k in 0..8 * p.dirs {
        counts[k] = count_before(img, entry_of(img, p, k)).ok_or(NotSound)?;
    }
    Ok(())
}

// Gives each sequential entry its count.
fn write_counts(img: &mut [u8], p: Layout, counts: &[usize])
    requires { Located img.old p × (8 * p.dirs ≤ length counts.now)
        × ((k : ℕ) → k < 8 * p.dirs
        → (get_or counts.now k 0 ≡ records_before img.old (entry_at img.old k)) × (get_or counts.now k 0 < 4294967296)) }
    ensures { img.new ≡ brought_up img.old }
{
    // Stays: by index, as in `count_all`: each turn needs the slot's number, and `enumerate` over the front of `counts` is no plainer.
    for k in 0..8 * p.dirs {
        put_count(img, p, k, counts[k]);
    }
}

/// Brings a volume up that is sound by the rule of before; any other image stays.
pub fn bring_up(img: &mut [u8]) -> Result<(), NotSound>
    ensures { (is_ok result ≡ sound_before img.old)
        × (img.new ≡ (if sound_before img.old then brought_up img.old else img.old)) }
{
    let mut used = [0u8; MOST_FILES];
    let p = judge(img, &mut used).ok_or(NotSound)?.p;
    let mut counts = [0usize; MOST_FILES];
    count_all(img, p, &mut counts)?;
    write_counts(img, p, &counts);
    Ok(())
}
