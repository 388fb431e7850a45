// A volume judged: what points 3 and 4 of soundness say of stream bytes and record counts, and the verdict as a whole.
ghost use Rattle.lists.specs.Lists.{all, distinct};
ghost use Rattle.std.specs.Prelude.{◌≡◌, true, false, ◌*◌, length, drop};
ghost use Rattle.lists.specs.Parts.{zeros, in_sectors};
ghost use Rattle.records.specs.Streams.{laid_out};
ghost use Rattle.records.specs.Code.Mapped.{stream_in};
ghost use Rattle.ownership.specs.Blocks.{sound3};
ghost use Rattle.files.specs.Code.Opens.{Opens};
ghost use Rattle.volume.specs.Directory.{unused, contiguous, start, entries};
ghost use Rattle.ownership.specs.Owners.{all_owned};
ghost use Rattle.files.specs.Code.Verdict.{content_of, stream_count, file_sound, sound_at, checked_of};

use crate::map::{map_of, stream_end};
use lists::parts::all_zero;
use numbers::{MOST_FILES, MOST_SECTORS};
use ownership::judge::{Judged, judge};
use ownership::owners::free_sectors;
use records::stream::Stream;
use volume::directory::{Entry, contiguous, record_count, record_length, start};
use volume::locate::Layout;
use volume::mount::Volume;
use volume::used::Used;

/// Sound or not, and the number of free sectors, 0 if not sound.
// Stays: the report of a check has both numbers, whatever the verdict.
#[derive(Clone, Copy, Debug, PartialEq, Eq, Hash)]
pub struct Checked {
    pub sound: bool,
    pub free: usize,
}

// Are the stream's bytes from e on zero? All lie in its last sector.
fn tail_zero(stream: &Stream<'_>, e: usize) -> bool
    requires { length stream.now.map.now ≡ in_sectors e }
    ensures { result ≡ zeros (drop e (laid_out stream.now.img.now stream.now.map.now)) }
{
    let r = e % 256;
    if r == 0 {
        return true;
    }
    let last = 256 * usize::from(stream.map[e / 256]);
    all_zero(&stream.img[last + r..last + 256])
}

// The records of length l that the stream's first e bytes are, if nothing but zeros comes after them.
fn content_count(stream: &Stream<'_>, l: usize, e: usize) -> Option<usize>
    requires { length stream.now.map.now ≡ in_sectors e }
    ensures { result ≡ content_of (zeros (drop e (laid_out stream.now.img.now stream.now.map.now))) l
        (stream_in stream.now.img.now stream.now.map.now e) }
{
    if tail_zero(stream, e) {
        stream.walk(l, e)
    } else {
        None
    }
}

/// The same of the file whose access block is sector s.
pub fn stream_count(img: &[u8], s: usize, l: usize) -> Option<usize>
    requires { Opens img.now s }
    ensures { result ≡ stream_count img.now s l }
{
    let mut room = [0u16; MOST_SECTORS];
    let map = map_of(img, s, &mut room);
    content_count(&Stream { img, map }, l, stream_end(img, s))
}

/// Are the tail, the records and the record count of the file of an entry in use sound?
#[tactic(auto, using(crate::proofs::check::FileVerdicts::sound_run, crate::proofs::check::FileVerdicts::sound_records))]
pub fn file_sound(img: &[u8], e: &Entry) -> bool
    requires { (unused e.now ≡ false) × (contiguous e.now ≡ false → Opens img.now (start e.now)) }
    ensures { result ≡ file_sound img.now e.now }
{
    contiguous(e) || stream_count(img, start(e), record_length(e)) == Some(record_count(e))
}

/// Are all files' tails, records and record counts sound?
pub fn contents_sound(used: &Used<'_, '_>) -> bool
    requires { (sound3 used.now.volume.img.now ≡ true) × (distinct (all_owned used.now.volume.img.now) ≡ true) }
    ensures { result ≡ all (file_sound used.now.volume.img.now) (entries used.now.volume.img.now) }
{
    (0..used.slots.len()).all(|i| file_sound(used.volume.img, used.entry(i)))
}

/// The layout of a sound volume, found in any bytes. Streams come last: they are walked by maps that hold no sector twice.
pub fn locate_sound(img: &[u8]) -> Option<Layout>
    ensures { result ≡ sound_at img.now }
{
    // Stays: a fixed room of the most that there can be, since there is no heap here.
    let mut used = [0u8; MOST_FILES];
    let Judged { p, files } = judge(img, &mut used)?;
    let used = Used {
        volume: Volume { img, p },
        slots: &used[..files],
    };
    contents_sound(&used).then_some(p)
}

/// Judges any bytes of any length.
pub fn check(img: &[u8]) -> Checked
    ensures { result ≡ checked_of img.now }
{
    let Some(p) = locate_sound(img) else {
        return Checked {
            sound: false,
            free: 0,
        };
    };
    let free = free_sectors(&Volume { img, p });
    Checked { sound: true, free }
}
