// A file deleted: its sectors freed, its access block too, and its entry zeroed; the sectors' bytes stay.
ghost use Rattle.std.specs.Prelude.{◌≡◌, true, ◌*◌, ◌<◌};
ghost use Rattle.ownership.specs.Blocks.{sound3};
ghost use Rattle.volume.specs.Code.Located.{Located};
ghost use Rattle.files.specs.Changes.{deleted};

use ownership::owners::free_owned;
use volume::directory::clear_entry;
use volume::locate::Layout;

/// Deletes the file in slot k.
pub fn delete(img: &mut [u8], p: Layout, k: usize)
    requires { Located img.old p × (sound3 img.old ≡ true) × (k < 8 * p.dirs) }
    ensures { img.new ≡ deleted k img.old }
{
    free_owned(img, p, k);
    clear_entry(img, p, k);
}
