// Places: what a selector names, seen from where a LUN stands.
#![tactic(auto, using(lists::proofs::Steps::bool_steps), unfolding(crate::specs::Luns::target, crate::specs::Luns::placeless, crate::specs::Code::Numbers::selector_or))]

ghost use Rattle.std.specs.Prelude.{◌≡◌};
ghost use Rattle.luns.specs.Luns.{target, placeless};
ghost use Rattle.luns.specs.Code.Numbers.{selector_or};

use crate::Place;
use std::convert::TryFrom;

/// Which record or sector a transfer is of, by the house numbers 0 to 3.
#[derive(Clone, Copy, Debug, PartialEq, Eq)]
pub enum Selector {
    Next = 0,
    Current = 1,
    Prior = 2,
    Random = 3,
}

/// The error of a number that is no selector: one above 3.
#[derive(Clone, Copy, Debug, PartialEq, Eq)]
pub struct UnknownSelector;

impl TryFrom<u32> for Selector {
    type Error = UnknownSelector;

    ghost try_from_gives = { λ k r. r ≡ selector_or k };

    fn try_from(k: u32) -> Result<Selector, UnknownSelector> {
        match k {
            0 => Ok(Selector::Next),
            1 => Ok(Selector::Current),
            2 => Ok(Selector::Prior),
            3 => Ok(Selector::Random),
            _ => Err(UnknownSelector),
        }
    }
}

// Stays: this and the next take the number, since a call may pass any, and the definitions speak of all.
/// The record or sector number that a selector names: 0 Next, 1 Current, 2 Prior, 3 Random. It may pass 32 bits. Where it names nothing
/// (`placeless`), it is num at a place and 0 when Fresh, for Prior at the first it is 0, and for Current and Prior when Fresh it is 0.
pub fn target(sel: u32, num: u32, place: Place) -> usize
    ensures { result ≡ target sel num place }
{
    match (Selector::try_from(sel), place) {
        (Ok(Selector::Random), _) => num as usize,
        (_, Place::Fresh) => 0,
        (Ok(Selector::Next), Place::At { i, n }) => i as usize + n as usize,
        (Ok(Selector::Current), Place::At { i, .. }) => i as usize,
        (Ok(Selector::Prior), Place::At { i, .. }) => i.saturating_sub(1) as usize,
        (Err(_), Place::At { .. }) => num as usize,
    }
}

/// Whether a selector names nothing there: it is unknown, or Current when Fresh, or Prior when Fresh or at the first.
pub fn placeless(sel: u32, place: Place) -> bool
    ensures { result ≡ placeless sel place }
{
    let Ok(sel) = Selector::try_from(sel) else {
        return true;
    };
    match place {
        Place::Fresh => matches!(sel, Selector::Current | Selector::Prior),
        Place::At { i, .. } => i == 0 && matches!(sel, Selector::Prior),
    }
}
