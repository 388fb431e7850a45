// Whether a desk fits a sound volume. Slots, users and rights come first: how far a file goes is looked up in its entry, which has to be
// in use. A free LUN is passed over: it fits by itself and agrees with every other.
#![tactic(auto, using(lists::proofs::Steps::bool_steps), unfolding(crate::specs::Luns::reads_by_right, crate::specs::Luns::place_exists, crate::specs::Code::Fits::seated, crate::specs::Code::Fits::place_within))]

ghost use Rattle.std.specs.Prelude.{◌≡◌, true, not, ◌*◌, ◌<◌, leb};
ghost use Rattle.lists.specs.Lists.{◌and◌, ◌or◌, all};
ghost use Rattle.numbers.specs.Numbers.{last_user};
ghost use Rattle.volume.specs.Directory.{entry_at, unused, owner};
ghost use Rattle.files.specs.Files.{sound};
ghost use Rattle.files.specs.Rights.{has_right};
ghost use Rattle.luns.specs.Luns.{agree, place_exists, reads_by_right, lun_fits, fits};
ghost use Rattle.luns.specs.Code.Fits.{seated, place_within};

use crate::{Lun, Place};
use files::extent::extent_of;
use files::rights::{has_right, may_read};
use numbers::{LAST_USER, LUNS, MOST_MOVED};
use volume::directory::{Entry, contiguous, owner, unused};
use volume::mount::Volume;

// Whether the user may hold the file of this entry, to write if it is a writer.
fn may_hold(e: &Entry, user: u32, writes: bool) -> bool
    ensures { result ≡ not (unused e.now) and leb user last_user and (not writes or has_right user (owner e.now)) }
{
    // Stays: `as`, here and below: usize has no From<u32> and u32 none of usize, and what is narrowed is proved to fit.
    !unused(e) && user <= LAST_USER && (!writes || has_right(user, owner(e) as u32))
}

/// Whether a LUN that reads has the right to, by the code that it keeps.
pub fn reads_by_right(v: &Volume<'_>, u: Lun) -> bool
    requires { u.slot < 8 * v.now.p.dirs }
    ensures { result ≡ reads_by_right v.now.img.now u }
{
    !u.mode.reads() || may_read(u.user, u.offered, v.entry(u.slot as usize))
}

// Of a held LUN: its slot is in use, its user in range, and it writes and reads with the right to.
#[tactic(auto, using(lists::proofs::Steps::bool_steps, crate::proofs::FitLaws::past_unused), unfolding(crate::specs::Code::Fits::seated))]
fn seated(v: &Volume<'_>, u: Lun) -> bool
    ensures { result ≡ seated v.now.img.now u }
{
    let slot = u.slot as usize;
    slot < 8 * v.p.dirs && may_hold(v.entry(slot), u.user, u.mode.writes()) && reads_by_right(v, u)
}

// Whether the place is one in a file of n records, or sectors if it is contiguous.
fn place_within(contiguous: bool, n: usize, place: Place) -> bool
    ensures { result ≡ place_within contiguous n place }
{
    match place {
        Place::Fresh => true,
        Place::At { i, n: m } if contiguous => {
            1 <= m && m as usize <= MOST_MOVED && i as usize + m as usize <= n
        }
        Place::At { i, n: m } => m == 1 && (i as usize) < n,
    }
}

// Of a held LUN that is seated: its place exists in its file.
fn stands(v: &Volume<'_>, u: Lun) -> bool
    requires { (sound v.now.img.now ≡ true) × (seated v.now.img.now u ≡ true) }
    ensures { result ≡ place_exists v.now.img.now (entry_at v.now.img.now u.slot) u.place }
{
    let slot = u.slot as usize;
    place_within(
        contiguous(v.entry(slot)),
        extent_of(v.img, v.p, slot),
        u.place,
    )
}

// Of a held LUN: all that it has to be by itself and beside these others.
#[tactic(auto, using(lists::proofs::Steps::bool_steps, crate::proofs::Steps::all_as, crate::proofs::FitLaws::held_parts))]
fn fit(v: &Volume<'_>, u: Lun, others: &[Lun]) -> bool
    requires { (sound v.now.img.now ≡ true) × (u.held ≡ true) }
    ensures { result ≡ lun_fits v.now.img.now u and all (agree u) others.now }
{
    seated(v, u) && stands(v, u) && u.agrees_with(others)
}

/// Whether the desk fits a sound volume: slots in use, users in range, writers and readers with the right to, modes that agree, places that
/// exist.
pub fn fits(v: &Volume<'_>, luns: &[Lun; LUNS]) -> bool
    requires { sound v.now.img.now ≡ true }
    ensures { result ≡ fits v.now.img.now luns.now }
{
    let mut rest: &[Lun] = luns;
    // Stays: each LUN is held against those after it, for which a slice has no iterator.
    while let [u, others @ ..] = rest {
        if u.held && !fit(v, *u, others) {
            return false;
        }
        rest = others;
    }
    true
}
