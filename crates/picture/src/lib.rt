// A volume drawn as text, a letter a sector. Every function is proved equal to a definition of specs/.
#![tactic(auto)]

ghost use Rattle.std.specs.Prelude.{if◌then◌else◌, ◌≡◌, ◌<◌, ◌≤◌, length};
ghost use Rattle.numbers.specs.Numbers.{most_sectors};
ghost use Rattle.lists.specs.Lists.{some, among};
ghost use Rattle.lists.specs.Parts.{sectors, over};
ghost use Rattle.volume.specs.Volume.{system_of};
ghost use Rattle.volume.specs.Directory.{entries};
ghost use Rattle.volume.specs.Code.Located.{LaidOut};
ghost use Rattle.files.specs.Files.{sound};
ghost use Rattle.compaction.specs.Code.Holders.{Holders};
ghost use Rattle.picture.specs.Picture.{slot_letter, is_block, sector_letter, picture, drawn};

use compaction::holders::{Table, fill_holders};
use files::check::locate_sound;
use numbers::MOST_SECTORS;
use volume::directory::{Entry, contiguous, start, unused};
use volume::locate::Layout;
use volume::mount::Volume;
use volume::sat::marked;

// Slots that have a capital letter; a letter; a letter or a digit. The two after these have a sign.
const CAPITALS: usize = 26;

const LETTERS: usize = 52;

const LETTERS_AND_DIGITS: usize = 62;

// The letter of slot k, of the 64 that there can be.
#[tactic(auto, using(std::proofs::lemmas::Bool::Decides::nat_tests), unfolding(crate::specs::Picture::slot_letter))]
fn slot_letter(k: usize) -> u8
    ensures { result ≡ slot_letter k }
{
    if k < CAPITALS {
        // Stays: `as`, here and below: each k is below the number of its letters.
        b'A' + k as u8
    } else if k < LETTERS {
        b'a' + (k - CAPITALS) as u8
    } else if k < LETTERS_AND_DIGITS {
        b'0' + (k - LETTERS) as u8
    } else if k == LETTERS_AND_DIGITS {
        b'+'
    } else {
        b'/'
    }
}

// Is sector x the system's?
fn in_system(p: Layout, x: usize) -> bool
    requires { LaidOut p }
    ensures { result ≡ among x (system_of p) }
{
    [0, p.sat, p.t - 1].contains(&x) || (p.dir <= x && x < p.dir + p.dirs)
}

// Is sector x the access block of an entry's file?
#[tactic(auto, using(lists::proofs::Steps::bool_steps), unfolding(crate::specs::Picture::is_block))]
fn entry_has(e: &Entry, x: usize) -> bool
    ensures { result ≡ is_block x e.now }
{
    !(unused(e) || contiguous(e)) && start(e) == x
}

// Is it one of any file?
fn is_block(v: &Volume<'_>, x: usize) -> bool
    ensures { result ≡ some (is_block x) (entries v.now.img.now) }
{
    v.entries().iter().any(|e| entry_has(e, x))
}

// The letter of sector x, by the table of who has which data sector.
fn letter_at(v: &Volume<'_>, who: &Table, x: usize) -> u8
    requires { Holders v.now.img.now who.now × (x < v.now.p.t) }
    ensures { result ≡ sector_letter v.now.img.now x }
{
    if in_system(v.p, x) {
        return b'#';
    }
    if !marked(v.table(), x) {
        return b'.';
    }
    let k = usize::from(who[x]);
    if k < 8 * v.p.dirs {
        slot_letter(k)
    } else if is_block(v, x) {
        b'@'
    } else {
        b'='
    }
}

// Draws every sector.
fn draw_all(v: &Volume<'_>, who: &Table, out: &mut [u8])
    requires { Holders v.now.img.now who.now × (most_sectors ≤ length out.old) }
    ensures { out.new ≡ over (picture v.now.img.now) out.old }
{
    for x in 0..v.p.t {
        out[x] = letter_at(v, who, x);
    }
}

/// Draws a sound volume from the first byte of `out` on, a letter a sector, and answers how many sectors it has; of any other bytes nothing
/// is drawn, and the answer is 0.
pub fn draw(img: &[u8], out: &mut [u8]) -> usize
    requires { most_sectors ≤ length out.old }
    ensures { (result ≡ (if sound img.now then sectors img.now else 0))
        × (out.new ≡ drawn img.now out.old) }
{
    let Some(p) = locate_sound(img) else {
        return 0;
    };
    // Stays: a room of fixed size, lent to what fills it: there is no heap here, and a table by value would be copied.
    let mut who = [0u8; MOST_SECTORS];
    let v = Volume { img, p };
    fill_holders(&mut who, &v);
    draw_all(&v, &who, out);
    p.t
}
