//! Why a document is not read.
ghost use Rattle.std.specs.Prelude.{◌≡◌};
ghost use Rattle.trig_reader.specs.declared.fault.TrigFault.TheVariants.{NoMemory as Memory};

use rdf_terms::NoMemory;
use std::error::Error;
use std::fmt;

/// Why a document was not read. A line is given by its number, counted from 1.
#[derive(Clone, Copy, Debug, PartialEq, Eq)]
pub enum TrigFault {
    /// The bytes are not UTF-8; the line has the first byte behind the longest front that is.
    NotUtf8 { line: u64 },
    /// The tokens are not those of a document; the line has the first one that no document goes on
    /// with. A place where no token fits counts as one, and so does the end of the text.
    BadTrig { line: u64 },
    /// The first use without a definition is a name whose prefix is not defined before it.
    UnknownPrefix { line: u64 },
    /// The first use without a definition is a reference without a scheme, while there is no base.
    NoBase { line: u64 },
    /// There are more than `MAX_QUADS` distinct quads.
    TooManyQuads,
    NoMemory,
}

impl From<NoMemory> for TrigFault {
    ghost from_gives = { λ _ e. e ≡ Memory };

    fn from(_: NoMemory) -> Self {
        TrigFault::NoMemory
    }
}

impl fmt::Display for TrigFault {
    fn fmt<W: fmt::Write>(&self, f: &mut fmt::Formatter<W>) -> fmt::Result {
        match self {
            TrigFault::NotUtf8 { line } => write!(f, "line {line} is not UTF-8"),
            TrigFault::BadTrig { line } => write!(f, "line {line} is not in the grammar"),
            TrigFault::UnknownPrefix { line } => {
                write!(f, "line {line} has a name with an unknown prefix")
            }
            TrigFault::NoBase { line } => {
                write!(
                    f,
                    "line {line} has an IRI without a scheme, and there is no base"
                )
            }
            TrigFault::TooManyQuads => f.write_str("too many quads"),
            TrigFault::NoMemory => f.write_str("out of memory"),
        }
    }
}

impl Error for TrigFault {}
