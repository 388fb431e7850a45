// Bytes written to a stream, through the part of each sector that they meet.
ghost use Rattle.std.specs.Prelude.{◌≡◌, ◌+◌, ◌≤◌, ◌*◌, length, true};
ghost use Rattle.lists.specs.Lists.{distinct};
ghost use Rattle.lists.specs.Parts.{put, sector, put_sector};
ghost use Rattle.records.specs.Code.Mapped.{Mapped, written_at};

use lists::parts::at_sector;

/// Writes over the bytes of a part from r on.
#[tactic(auto, unfolding(lists::specs::Parts::put))]
pub fn copy_at(part: &mut [u8], r: usize, src: &[u8])
    requires { r + length src.now ≤ length part.old }
    ensures { part.new ≡ put r src.now part.old }
{
    part[r..r + src.len()].copy_from_slice(src);
}

// Into sector s from its byte r on.
fn write_chunk(img: &mut [u8], s: usize, r: usize, src: &[u8])
    requires { (256 * s + 256 ≤ length img.old) × (r + length src.now ≤ 256) }
    ensures { img.new ≡ put_sector s (put r src.now (sector s img.old)) img.old }
{
    at_sector(img, s, |part| copy_at(part, r, src));
}

// Stays: image and map apart in what writes, since a fact about a lent image would be owed again at every write.
/// Writes data to the stream from `from` on, through the part of each sector that it meets.
pub fn write_stream(img: &mut [u8], map: &[u16], from: usize, src: &[u8])
    requires { Mapped img.old map.now × (distinct map.now ≡ true) × (from + length src.now ≤ 256 * length map.now) }
    ensures { img.new ≡ written_at img.old map.now from src.now }
{
    let mut i = 0;
    // Stays: each turn goes on to the end of its sector.
    while i < src.len() {
        let q = from + i;
        let r = q % 256;
        let next = i + (256 - r).min(src.len() - i);
        write_chunk(img, usize::from(map[q / 256]), r, &src[i..next]);
        i = next;
    }
}
