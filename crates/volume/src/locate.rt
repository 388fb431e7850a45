// Where things are on a volume: the trailer's words, and T, the SAT, the directory and D from any bytes.
ghost use Rattle.numbers.specs.Numbers.{most_sectors};
ghost use Rattle.std.specs.Prelude.{◌≡◌, ◌<◌, ◌≤◌, length, true};
ghost use Rattle.lists.specs.Parts.{blanks};
ghost use Rattle.volume.specs.Volume.{sat_back, dir_back, dir_count, layout_of, sound1};
ghost use Rattle.volume.specs.Code.Located.{sized_test, trailer_test, dirs_test, where_of, LaidOut};
ghost use Rattle.volume.specs.Formatted.{trailer_of};

use crate::names::volume_id;
use lists::parts::{Sector, all_zero, put_word, sector_of, word_at};
use numbers::{FEWEST_SECTORS, MOST_DIRS, MOST_SECTORS};

/// T, the SAT's sector, the first directory sector and D.
#[derive(Clone, Copy, Debug, PartialEq, Eq)]
pub struct Layout {
    pub t: usize,
    pub sat: usize,
    pub dir: usize,
    pub dirs: usize,
}

// T sectors, and no byte more.
#[tactic(auto, using(lists::proofs::Steps::bool_steps, std::proofs::lemmas::Bool::Decides::nat_tests), unfolding(lists::specs::Parts::sectors))]
fn sized(img: &[u8]) -> bool
    ensures { result ≡ sized_test img.now }
{
    let t = img.len() / 256;
    img.len() == 256 * t && FEWEST_SECTORS <= t && t <= MOST_SECTORS
}

// Stays: the trailer's words as `usize` with a bound beside it, since the places that they tell are sums.
// The trailer's distance back to the SAT.
fn sat_back(tr: &Sector) -> usize
    ensures { (result ≡ sat_back tr.now) × (result < 65536) }
{
    word_at(tr, 2)
}

// The trailer's distance back to the first directory sector.
fn dir_back(tr: &Sector) -> usize
    ensures { (result ≡ dir_back tr.now) × (result < 65536) }
{
    word_at(tr, 4)
}

// The trailer's D.
fn dir_count(tr: &Sector) -> usize
    ensures { (result ≡ dir_count tr.now) × (result < 65536) }
{
    word_at(tr, 6)
}

// The trailer says T, its distances stay on the volume, and its other bytes are zero.
fn trailer_good(tr: &Sector, t: usize) -> bool
    ensures { result ≡ trailer_test t tr.now }
{
    word_at(tr, 0) == t && all_zero(&tr[8..]) && sat_back(tr) < t && dir_back(tr) < t
}

// D is in range, and the directory ends on the volume.
#[tactic(auto, using(lists::proofs::Steps::bool_steps, std::proofs::lemmas::Bool::Decides::nat_tests))]
fn dirs_good(tr: &Sector, t: usize) -> bool
    requires { (t ≤ most_sectors) × (dir_back tr.now < t) }
    ensures { result ≡ dirs_test t tr.now }
{
    let d = dir_count(tr);
    let dir = t - 1 - dir_back(tr);
    1 <= d && d <= MOST_DIRS && dir + d <= t
}

// Stays: two returns, since the trailer is read only where the image has a sector, and its D only where its distances stay inside.
/// Point 1 of soundness.
pub fn sound_1(img: &[u8]) -> bool
    ensures { result ≡ sound1 img.now }
{
    if !sized(img) {
        return false;
    }
    let t = img.len() / 256;
    let tr = sector_of(img, t - 1);
    if !trailer_good(tr, t) {
        return false;
    }
    dirs_good(tr, t) && volume_id(&img[0..4])
}

fn read_places(img: &[u8]) -> Layout
    requires { sound1 img.now ≡ true }
    ensures { result ≡ layout_of img.now }
{
    let t = img.len() / 256;
    let tr = sector_of(img, t - 1);
    let sat = t - 1 - sat_back(tr);
    let dir = t - 1 - dir_back(tr);
    let dirs = dir_count(tr);
    Layout { t, sat, dir, dirs }
}

/// The layout of any bytes that point 1 of soundness holds of.
#[tactic(auto, unfolding(crate::specs::Code::Located::where_of))]
pub fn locate(img: &[u8]) -> Option<Layout>
    ensures { result ≡ where_of img.now }
{
    if sound_1(img) {
        return Some(read_places(img));
    }
    None
}

/// Writes the trailer of a volume that has its parts there.
#[tactic(auto, using(crate::proofs::Formatted::trailer_filled))]
pub fn put_trailer(part: &mut [u8], p: Layout)
    requires { (length part.old ≡ 256) × (part.old ≡ blanks 256) × LaidOut p }
    ensures { part.new ≡ trailer_of p }
{
    put_word(part, 0, p.t);
    put_word(part, 2, p.t - 1 - p.sat);
    put_word(part, 4, p.t - 1 - p.dir);
    put_word(part, 6, p.dirs);
}
