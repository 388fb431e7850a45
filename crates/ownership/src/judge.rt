// Any bytes judged: points 1, 2, 3 (but for the streams' tails) and 5 of soundness, each once.
ghost use Rattle.std.specs.Prelude.{if◌then◌else◌, ◌≡◌, ◌*◌, ◌≤◌, length};
ghost use Rattle.numbers.specs.Numbers.{most_dirs};
ghost use Rattle.lists.specs.Parts.{over};
ghost use Rattle.volume.specs.Volume.{sound1};
ghost use Rattle.volume.specs.Code.Used.{used_slots};
ghost use Rattle.ownership.specs.Code.Verdict.{owner_sound, judged_of};

use crate::blocks::blocks_sound;
use crate::owners::owners_sound;
use volume::locate::Layout;
use volume::mount::mount;
use volume::used::Used;

/// What is known of a volume that is sound but for its streams: where things are on it, and how many slots are in use.
#[derive(Clone, Copy, Debug, PartialEq, Eq)]
pub struct Judged {
    pub p: Layout,
    pub files: usize,
}

#[tactic(auto, using(lists::proofs::Steps::bool_steps), unfolding(crate::specs::Code::Verdict::owner_sound))]
fn judge_listed(u: &Used<'_, '_>) -> bool
    ensures { result ≡ owner_sound u.now.volume.img.now }
{
    u.is_directory_sound() && blocks_sound(u) && owners_sound(u)
}

/// Any bytes of any length are judged; nothing comes back of those that are not sound. Where point 1 holds, `used` gets at its front the slots in use.
pub fn judge(img: &[u8], used: &mut [u8]) -> Option<Judged>
    requires { 8 * most_dirs ≤ length used.old }
    ensures { (result ≡ judged_of img.now)
        × (used.new ≡ (if sound1 img.now
        then over (used_slots img.now) used.old else used.old)) }
{
    let volume = mount(img)?;
    let files = volume.list_used(used);
    if judge_listed(&Used {
        volume,
        slots: &used[..files],
    }) {
        Some(Judged { p: volume.p, files })
    } else {
        None
    }
}
