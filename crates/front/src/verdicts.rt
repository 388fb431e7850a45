// Check's verdict as one number.
ghost use Rattle.std.specs.Prelude.{◌≡◌, ◌<◌};
ghost use Rattle.front.specs.Front.{verdict};

use desk::{Answer, Report};

/// What is added to the free sectors of a sound volume.
pub const SOUND_BIT: u32 = 0x10000;

/// The number of an answer of check.
pub(crate) fn verdict_of(a: Answer) -> u32
    requires { verdict a < 131072 }
    ensures { result ≡ verdict a }
{
    match a {
        Ok(Report::Checked { sound: true, free }) => SOUND_BIT + free,
        Ok(Report::Checked { sound: false, free }) => free,
        _ => 0,
    }
}
