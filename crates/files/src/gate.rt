// A gate as a record of the program.
ghost use Rattle.std.specs.Prelude.{◌≡◌, ◌++◌, Some, codes};
ghost use Rattle.std.specs.Fmt.{decimal};
ghost use Rattle.model.specs.Net.{is_look};
ghost use Rattle.files.specs.Gates.{Decodes, gate_of, name_of};

use std::error::Error;
use std::fmt;

/// What a gate does.
#[derive(Clone, Copy, PartialEq, Eq, Debug, Default)]
pub enum Kind {
    #[default]
    Add,
    Shift,
    Map,
    Look,
}

/// A byte that stands for no kind of gate.
#[derive(Clone, Copy, PartialEq, Eq, Debug)]
pub struct UnknownKind(pub u8);

// The numbers of the kinds stand here and nowhere else.
impl TryFrom<u8> for Kind {
    type Error = UnknownKind;

    ghost try_from_gives = { Decodes };

    fn try_from(byte: u8) -> Result<Kind, UnknownKind> {
        match byte {
            0 => Ok(Kind::Add),
            1 => Ok(Kind::Shift),
            2 => Ok(Kind::Map),
            3 => Ok(Kind::Look),
            _ => Err(UnknownKind(byte)),
        }
    }
}

// By hand, since a derive would promise no text.
impl fmt::Display for Kind {
    ghost output = { λ kind. Some (name_of kind) };

    fn fmt<W: fmt::Write>(&self, f: &mut fmt::Formatter<W>) -> fmt::Result {
        f.write_str(match self {
            Kind::Add => "ADD",
            Kind::Shift => "SHIFT",
            Kind::Map => "MAP",
            Kind::Look => "LOOK",
        })
    }
}

// By hand for the same reason, and so `Error` below.
impl fmt::Display for UnknownKind {
    ghost output = { λ e. Some (codes "no kind of gate has the number " ++ decimal e.0) };

    fn fmt<W: fmt::Write>(&self, f: &mut fmt::Formatter<W>) -> fmt::Result {
        write!(f, "no kind of gate has the number {}", self.0)
    }
}

impl Error for UnknownKind {}

/// A gate: its kind, an earlier wire, and by kind an earlier wire, a code, the number of a row or of a table.
#[derive(Clone, Copy, PartialEq, Eq, Debug, Default)]
pub struct Gate {
    pub kind: Kind,
    pub first: u16,
    pub second: u16,
}

impl Gate {
    /// Whether it is a LOOK.
    pub fn is_look(&self) -> bool
        ensures { result ≡ is_look (gate_of self.now) }
    {
        self.kind == Kind::Look
    }
}
