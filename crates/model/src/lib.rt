//! What is true of circuits, over lists of numbers: definitions, and the worked examples that hold of them.

#![tactic(auto)]

ghost use Rattle.model.specs.Place.{Lifts};
ghost use Rattle.model.specs.Tape.{TapesAreDeals};
ghost use Rattle.model.specs.Worked.{Worked};

/// The worked examples hold of the definitions. Its contract is all there is to it.
pub fn worked_examples_hold()
    ensures { Worked }
{}

/// Tapes of codes and lawful deals are one to one.
pub fn tapes_are_deals()
    ensures { TapesAreDeals }
{}

/// A call on the shelf is a call on one place, and leaves the other places as they were.
pub fn a_call_is_on_one_place()
    ensures { Lifts }
{}
