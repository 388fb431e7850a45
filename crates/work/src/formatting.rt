// Format: a volume made of any bytes.
#![tactic(auto, using(lists::proofs::Steps::bool_steps, std::proofs::lemmas::Bool::Decides::nat_tests), unfolding(volume::specs::Volume::in_range, lists::specs::Parts::sectors))]

ghost use Rattle.std.specs.Prelude.{◌≡◌, [], ◌*◌, length, eqb};
ghost use Rattle.lists.specs.Lists.{◌and◌};
ghost use Rattle.volume.specs.Names.{volume_id};
ghost use Rattle.lists.specs.Parts.{sectors};
ghost use Rattle.volume.specs.Volume.{in_range};
ghost use Rattle.work.specs.Code.Deeds.{deed, format_deed};

use crate::{Refusal, Transfer};
use numbers::{FEWEST_SECTORS, MOST_DIRS, MOST_SECTORS};
use volume::names::volume_id;

fn in_range(t: usize, d: usize) -> bool
    ensures { result ≡ in_range t d }
{
    FEWEST_SECTORS <= t && t <= MOST_SECTORS && 1 <= d && d <= MOST_DIRS
}

// Whether an image of this length can be a volume of this ID and number of directory sectors.
fn formattable(image: &[u8], id: &[u8], dirs: usize) -> bool
    ensures { result ≡ eqb (length image.now) (256 * sectors image.now)
        and in_range (sectors image.now) dirs and volume_id id.now }
{
    let t = image.len() / 256;
    image.len() == 256 * t && in_range(t, dirs) && volume_id(id)
}

/// Makes the whole image an empty volume with this ID of four bytes and 1 to 8 directory sectors. Refuses a length that is not 256
/// times 16 to 2,048, a number of directory sectors out of range, and a bad ID.
pub fn format(image: &mut [u8], id: &[u8], dirs: usize) -> Result<Transfer, Refusal>
    ensures { deed result image.new [] ≡ format_deed image.old id.now dirs }
{
    if !formattable(image, id, dirs) {
        return Err(Refusal::OutOfRange);
    }
    volume::format::format(image, id, dirs);
    Ok(Transfer::default())
}
