//! Why a call of the library refuses what it was given.

#![tactic(auto)]

ghost use Rattle.std.specs.Prelude.{◌≡◌};
ghost use Rattle.refusals.specs.Numbers.{number, figure};

use thiserror::Error;

/// Why a call refused, with the place that shows it where there is one.
#[derive(Clone, Copy, PartialEq, Eq, Debug, Error)]
pub enum Refusal {
    /// 1: a file under 54 bytes (its length), or a bad pair in its directory (the pair's offset)
    #[error("refused 1 at {0}: the file is too short, or a pair of its directory is bad")]
    Layout(usize),
    /// 2: a count outside its limits (its offset), or one LOOK gate too many (the gate's offset)
    #[error("refused 2 at {0}: a count or the number of LOOK gates is outside its limits")]
    Limit(usize),
    /// 3: too few places were supplied (6 for gates, 12 for outputs: the offsets of their counts)
    #[error("refused 3 at {0}: too few places were supplied")]
    Places(usize),
    /// 4: a gate of an unknown kind (the gate's offset)
    #[error("refused 4 at {0}: no such kind of gate")]
    Kind(usize),
    /// 5: an operand that is no earlier wire, row or table (its offset)
    #[error("refused 5 at {0}: an operand that is no earlier wire, row or table")]
    Operand(usize),
    /// 6: a number of a table, a row or a SHIFT in the file that is no code (its offset)
    #[error("refused 6 at {0}: a table, row or SHIFT number that is no code")]
    Code(usize),
    /// 7: no such owner or output wire (its offset)
    #[error("refused 7 at {0}: no such owner or output wire")]
    Absent(usize),
    /// 8: no group has that word, or that size
    #[error("refused 8: no such group")]
    Group,
    /// 9: the group's size is not the circuit's
    #[error("refused 9: the group's size is not the circuit's")]
    Counts,
    /// 10: no such party
    #[error("refused 10: no such party")]
    Party,
    /// 15: a list or a buffer of the wrong length
    #[error("refused 15: a list or a buffer of the wrong length")]
    Length,
    /// 16: a number that was given is no code
    #[error("refused 16: a number that is no code")]
    NotCode,
}

impl Refusal {
    /// The number of the cause. 11 to 14 and 17 are kept free for later calls.
    // A match, since `as` reads no number from a variant that has a figure.
    pub fn number(self) -> u8
        ensures { result ≡ number self }
    {
        match self {
            Refusal::Layout(_) => 1,
            Refusal::Limit(_) => 2,
            Refusal::Places(_) => 3,
            Refusal::Kind(_) => 4,
            Refusal::Operand(_) => 5,
            Refusal::Code(_) => 6,
            Refusal::Absent(_) => 7,
            Refusal::Group => 8,
            Refusal::Counts => 9,
            Refusal::Party => 10,
            Refusal::Length => 15,
            Refusal::NotCode => 16,
        }
    }

    /// The offset or length that shows the cause, for 1 to 7.
    // Every variant is named, so that one that comes later has to say whether it has a figure.
    pub fn figure(self) -> Option<usize>
        ensures { result ≡ figure self }
    {
        match self {
            Refusal::Layout(at)
            | Refusal::Limit(at)
            | Refusal::Places(at)
            | Refusal::Kind(at)
            | Refusal::Operand(at)
            | Refusal::Code(at)
            | Refusal::Absent(at) => Some(at),
            Refusal::Group
            | Refusal::Counts
            | Refusal::Party
            | Refusal::Length
            | Refusal::NotCode => None,
        }
    }
}
