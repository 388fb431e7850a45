// What a reader may conclude from the calls' statements. One function, which does nothing: its contract is the record of all that was
// asked for, so that a statement without its proof fails this crate.
#![tactic(auto)]

ghost use Rattle.promises.specs.Demands.{Demands};

/// All that was asked for, as one contract.
pub fn promised()
    ensures { Demands }
{}
