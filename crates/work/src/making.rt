// A new file: it gets the lowest unused entry and the lowest run of free sectors.
ghost use Rattle.std.specs.Prelude.{◌≡◌, true, false, [], ◌≤◌};
ghost use Rattle.lists.specs.Lists.{◌and◌};
ghost use Rattle.volume.specs.Names.{descriptor, user_of};
ghost use Rattle.volume.specs.Directory.{code_allowed};
ghost use Rattle.volume.specs.Code.Located.{Located};
ghost use Rattle.files.specs.Files.{sound};
ghost use Rattle.work.specs.Volumes.{exists, sized};
ghost use Rattle.work.specs.Code.Deeds.{deed, allocate_deed, place_deed};

use crate::{Refusal, Transfer};
use files::allocation;
use files::allocation::lowest_start;
use files::rights::has_right;
use numbers::{MOST_SECTORS, RECORD_LIMIT};
use volume::directory::code_allowed;
use volume::locate::Layout;
use volume::mount::Volume;
use volume::names::{descriptor, user_of};

// Stays: the kind is a number, since a call may pass any and the entry holds it as one; `allocate` refuses those above 1.
// Contiguous files have a size and no record length; sequential ones no size, and a record length or 0.
#[tactic(auto, using(lists::proofs::Steps::bool_steps, std::proofs::lemmas::Bool::Decides::nat_tests), unfolding(crate::specs::Volumes::sized))]
fn sized(kind: usize, size: usize, record: usize) -> bool
    ensures { result ≡ sized kind size «record» }
{
    if kind == 0 {
        1 <= size && size <= MOST_SECTORS && record == 0
    } else {
        size == 0 && record <= RECORD_LIMIT
    }
}

// Whether the numbers of a new file of this user may be: those of its kind, and its read-protect code.
#[tactic(auto, using(lists::proofs::Steps::bool_steps))]
fn are_in_range(kind: usize, size: usize, record: usize, user: usize, read_code: u8) -> bool
    ensures { result ≡ sized kind size «record» and code_allowed user read_code }
{
    sized(kind, size, record) && code_allowed(user, read_code)
}

// An entry and a run are looked for.
fn place(
    image: &mut [u8],
    p: Layout,
    desc: &[u8],
    kind: usize,
    size: usize,
    record: usize,
    read_code: u8,
) -> Result<Transfer, Refusal>
    requires { Located image.old p × (sound image.old ≡ true) × (descriptor desc.now ≡ true)
        × (exists image.old desc.now ≡ false) × (kind ≤ 1) × (sized kind size «record» ≡ true)
        × (code_allowed (user_of desc.now) read_code ≡ true) }
    ensures { deed result image.new [] ≡ place_deed image.old desc.now kind size «record» read_code }
{
    let slot = Volume { img: image, p }
        .lowest_unused()
        .ok_or(Refusal::DirectoryFull)?;
    let s = lowest_start(image, p, kind, size);
    if p.t <= s {
        return Err(Refusal::NoRoom);
    }
    allocation::allocate(image, p, slot, desc, kind, size, record, read_code, s);
    Ok(Transfer::default())
}

/// Makes a file of kind 0, contiguous, of this size, or of kind 1, sequential, of this record length, 0 for variable ones, with
/// this read-protect code. Refuses the descriptor, the kind, the numbers (a code for a file of user 0 among them), a caller without the
/// right, a name that is taken, a full directory, and a volume without such a run.
pub fn allocate(
    image: &mut [u8],
    p: Layout,
    caller: u32,
    desc: &[u8],
    kind: usize,
    size: usize,
    record: usize,
    read_code: u8,
) -> Result<Transfer, Refusal>
    requires { Located image.old p × (sound image.old ≡ true) }
    ensures { deed result image.new []
        ≡ allocate_deed image.old caller desc.now kind size «record» read_code }
{
    if !descriptor(desc) {
        return Err(Refusal::BadDescriptor);
    }
    if 1 < kind {
        return Err(Refusal::UnknownType);
    }
    let user = user_of(desc);
    if !are_in_range(kind, size, record, user, read_code) {
        return Err(Refusal::OutOfRange);
    }
    if !has_right(caller, user as u32) {
        return Err(Refusal::NoRight);
    }
    if (Volume { img: image, p }).find(desc).is_some() {
        return Err(Refusal::NameTaken);
    }
    place(image, p, desc, kind, size, record, read_code)
}
