// A file looked for by its descriptor.
ghost use Rattle.std.specs.Prelude.{◌≡◌};
ghost use Rattle.work.specs.Code.Deeds.{sought_of};

use crate::Refusal;
use volume::mount::Volume;
use volume::names::descriptor;

/// The slot of the file with this descriptor. Refuses a bad descriptor, then a file that is not there.
pub fn seek(v: &Volume<'_>, desc: &[u8]) -> Result<usize, Refusal>
    ensures { result ≡ sought_of v.now.img.now desc.now }
{
    if !descriptor(desc) {
        return Err(Refusal::BadDescriptor);
    }
    v.find(desc).ok_or(Refusal::NoFile)
}
