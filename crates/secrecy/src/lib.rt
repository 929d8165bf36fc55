//! What a host lets see of masked evaluations says nothing of the values entered at it.

#![tactic(auto)]

ghost use Rattle.secrecy.specs.Computed.{ShiftComputed};
ghost use Rattle.secrecy.specs.Evaluation.{DifferenceFollows};
ghost use Rattle.secrecy.specs.Honest.{Honest};
ghost use Rattle.secrecy.specs.Secrecy.{Secrecy};

/// What a host lets see, its answers and its buffers' bytes, is the same in two histories that differ in the values entered at
/// it, once the deals are shifted; the shifted deals are lawful and the same to all other parties; and the shift is undone by
/// that of the exchanged histories. Over tapes this is one to one, and no list of calls is left out.
pub fn entered_values_stay_hidden()
    ensures { Secrecy }
{}

/// The difference of the clear runs of two histories follows the rules along the gates.
pub fn difference_follows()
    ensures { DifferenceFollows }
{}

/// Where every party sends what its part holds, a host accepts every call, answers what its own part holds, and gives the clear
/// outputs at CLOSE.
pub fn honest_runs_come_to_the_clear_outputs()
    ensures { Honest }
{}

/// The own part of a shifted deal is the own part of the deal, shifted by the difference of the clear runs.
pub fn shift_is_computed()
    ensures { ShiftComputed }
{}
