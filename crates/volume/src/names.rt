// Names, descriptors and volume IDs, judged.
ghost use Rattle.std.specs.Prelude.{◌≡◌, ◌≤◌, ◌<◌, length};
ghost use Rattle.volume.specs.Names.{user_of, letter, digit, spaces, name_end, name, descriptor, volume_id};
ghost use Rattle.lists.specs.Lists.{◌or◌, ◌and◌};
ghost use Rattle.lists.specs.Parts.{part};

use lists::parts::word_at;
use numbers::LAST_USER;

// May a name have it after its first letter?
#[tactic(auto, using(lists::proofs::Steps::bool_steps, std::proofs::lemmas::Bool::Decides::nat_tests), unfolding(crate::specs::Names::letter, crate::specs::Names::digit))]
fn in_name(c: u8) -> bool
    ensures { result ≡ letter c or digit c }
{
    c.is_ascii_uppercase() || c.is_ascii_digit()
}

/// Whether there is nothing but spaces.
pub fn all_spaces(s: &[u8]) -> bool
    ensures { result ≡ spaces s.now }
{
    s.iter().all(|c| *c == b' ')
}

// Stays: by index, since what comes after the first other byte is judged as a whole.
// What may follow a name's first letter.
fn name_end(s: &[u8]) -> bool
    ensures { result ≡ name_end s.now }
{
    for i in 0..s.len() {
        if !in_name(s[i]) {
            return all_spaces(&s[i..]);
        }
    }
    true
}

/// Whether these bytes are a name: a capital, then capitals and digits, then spaces.
pub fn name(s: &[u8]) -> bool
    ensures { result ≡ name s.now }
{
    match s {
        [first, rest @ ..] => first.is_ascii_uppercase() && name_end(rest),
        [] => false,
    }
}

// The catalog, filename and extension of a descriptor.
fn names_in(d: &[u8]) -> bool
    requires { length d.now ≡ 20 }
    ensures { result ≡ (name (part 2 8 d.now) or spaces (part 2 8 d.now)) and name (part 10 8 d.now)
        and name (part 18 2 d.now) }
{
    (name(&d[2..10]) || all_spaces(&d[2..10])) && name(&d[10..18]) && name(&d[18..20])
}

/// The user that a descriptor names.
pub fn user_of(d: &[u8]) -> usize
    requires { 2 ≤ length d.now }
    ensures { (result ≡ user_of d.now) × (result < 65536) }
{
    word_at(d, 0)
}

/// Whether these bytes are a descriptor: a user, a catalog or spaces, a filename and an extension.
pub fn descriptor(d: &[u8]) -> bool
    ensures { result ≡ descriptor d.now }
{
    d.len() == 20 && user_of(d) <= LAST_USER as usize && names_in(d)
}

/// Whether these bytes are a volume ID: a name of four.
#[tactic(auto, using(lists::proofs::Steps::bool_steps, std::proofs::lemmas::Bool::Decides::nat_tests), unfolding(crate::specs::Names::volume_id))]
pub fn volume_id(id: &[u8]) -> bool
    ensures { result ≡ volume_id id.now }
{
    id.len() == 4 && name(id)
}
