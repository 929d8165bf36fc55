//! What is true of circuit files, whoever writes them.

#![tactic(auto)]

ghost use Rattle.laws.specs.Laws.{CircuitsHold, ReadBack, GapsUnread};

/// A valid circuit that is written as a file, with any bytes in the gaps between its sections, is accepted and read as the
/// same circuit with its counts. Its offsets have to fit four bytes, and its gates and outputs the places supplied.
pub fn files_read_back()
    ensures { ReadBack }
{}

/// Two files with the same header, directory and sections, valid or not, are both accepted or both refused for one reason,
/// and give the same counts and the same circuit, whatever their gaps hold and however long the last gap is.
pub fn gaps_are_not_read()
    ensures { GapsUnread }
{}

/// A file that READ accepts is a valid net, and CIRCUIT, given the places that READ filled, accepts the file and holds that
/// net.
pub fn circuits_hold_what_was_read()
    ensures { CircuitsHold }
{}
