// Who may do what with a file.
ghost use Rattle.std.specs.Prelude.{◌≡◌};
ghost use Rattle.files.specs.Rights.{has_right, may_read};

use volume::directory::{Entry, owner, read_code};

/// Whether a caller may write, allocate or delete a file of this user: its owner or user 0.
#[tactic(auto, using(lists::proofs::Steps::bool_steps, std::proofs::lemmas::Bool::Decides::nat_tests), unfolding(crate::specs::Rights::has_right))]
pub fn has_right(caller: u32, user: u32) -> bool
    ensures { result ≡ has_right caller user }
{
    caller == 0 || caller == user
}

/// Whether a caller who offers this code may read the file of this entry: a code of 0, a code that is the one offered, its owner or user
/// 0.
#[tactic(auto, using(lists::proofs::Steps::bool_steps, std::proofs::lemmas::Bool::Decides::nat_tests), unfolding(crate::specs::Rights::may_read))]
pub fn may_read(caller: u32, offered: u8, e: &Entry) -> bool
    ensures { result ≡ may_read caller offered e.now }
{
    let its = read_code(e);
    its == 0 || offered == its || has_right(caller, owner(e) as u32)
}
