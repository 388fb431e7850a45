// Bring-up: a volume from before there were record counts gets them.
ghost use Rattle.std.specs.Prelude.{◌≡◌, []};
ghost use Rattle.work.specs.Code.Deeds.{deed, bring_up_deed};

use crate::{Refusal, Transfer};
use files::counting;

/// Gives each sequential entry of the volume its record count. Refuses a volume that is not sound by the rule of before there were counts.
pub fn bring_up(image: &mut [u8]) -> Result<Transfer, Refusal>
    ensures { deed result image.new [] ≡ bring_up_deed image.old }
{
    // Stays: with `map_err(..)?` the proof of the two returns did not close.
    if counting::bring_up(image).is_err() {
        return Err(Refusal::NotSound);
    }
    Ok(Transfer::default())
}
