// A volume made anew: its ID, table, trailer and directory.
ghost use Rattle.std.specs.Prelude.{◌≡◌, ◌≤◌, ◌*◌, length};
ghost use Rattle.numbers.specs.Numbers.{fewest_sectors, most_dirs, most_sectors};
ghost use Rattle.lists.specs.Parts.{blanks, sectors};
ghost use Rattle.volume.specs.Volume.{system_of};
ghost use Rattle.volume.specs.Sat.{sat_of};
ghost use Rattle.volume.specs.Formatted.{fresh_layout, formatted};
ghost use Rattle.volume.specs.Code.Located.{LaidOut};

use crate::locate::{Layout, put_trailer};
use crate::sat::{Mark, set_bit, set_run};
use lists::parts::{clear, copy_in};
use numbers::MOST_SECTORS;

// Where a new volume has its parts: the table at 1, the directory from 2 on.
fn fresh_layout(t: usize, d: usize) -> Layout
    ensures { result ≡ fresh_layout t d }
{
    Layout {
        t,
        sat: 1,
        dir: 2,
        dirs: d,
    }
}

// The table of a volume with system sectors only: 0, the table, the directory, the trailer, and what lies past the end.
#[tactic(auto, using(crate::proofs::Formatted::system_sat))]
fn mark_system(sat: &mut [u8], p: Layout)
    requires { (length sat.old ≡ 256) × (sat.old ≡ blanks 256) × LaidOut p }
    ensures { sat.new ≡ sat_of p.t (system_of p) }
{
    set_bit(sat, 0, Mark::Used);
    set_bit(sat, p.sat, Mark::Used);
    set_run(sat, p.dir, p.dirs, Mark::Used);
    set_run(sat, p.t - 1, MOST_SECTORS + 1 - p.t, Mark::Used);
}

/// A volume of the image's length with this ID, d directory sectors and no file.
pub fn format(img: &mut [u8], id: &[u8], d: usize)
    requires { (length img.old ≡ 256 * sectors img.old) × (fewest_sectors ≤ sectors img.old) × (sectors img.old ≤ most_sectors)
        × (1 ≤ d) × (d ≤ most_dirs) × (length id.now ≡ 4) }
    ensures { img.new ≡ formatted id.now d (sectors img.old) }
{
    let t = img.len() / 256;
    let p = fresh_layout(t, d);
    clear(img);
    copy_in(img, id);
    mark_system(&mut img[256..512], p);
    put_trailer(&mut img[256 * (t - 1)..256 * (t - 1) + 256], p);
}
