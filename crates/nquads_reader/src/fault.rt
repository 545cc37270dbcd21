//! Why a line is not taken, and why a document is not read.
ghost use Rattle.std.specs.Prelude.{◌≡◌, ◌↔◌, IsTrue};
ghost use Rattle.nquads_reader.specs.Reading.{fault_at};
ghost use Rattle.nquads_reader.specs.declared.fault.ReadFault.TheVariants.{NoMemory as Memory};
ghost use Rattle.nquads_reader.specs.declared.fault.LineFault.TheVariants.{NoMemory as LineMemory};

use rdf_terms::NoMemory;
use std::alloc::{AllocError, AllocFailed};
use std::error::Error;
use std::fmt;

/// Why a document was not read. A line is given by its number, counted from 1, and is the first
/// one with any fault.
#[derive(Clone, Copy, Debug, PartialEq, Eq)]
pub enum ReadFault {
    /// The bytes of the line are not UTF-8.
    NotUtf8 { line: u64 },
    /// The line is not in the grammar.
    BadLine { line: u64 },
    /// An IRI of the line has no scheme.
    RelativeIri { line: u64 },
    /// There are more than `MAX_QUADS` distinct quads.
    TooManyQuads,
    NoMemory,
}

impl ReadFault {
    pub(crate) fn is_no_memory(self) -> bool
        ensures { IsTrue result ↔ (self ≡ Memory) }
    {
        match self {
            ReadFault::NoMemory => true,
            _ => false,
        }
    }
}

impl From<NoMemory> for ReadFault {
    ghost from_gives = { λ _ e. e ≡ Memory };

    fn from(_: NoMemory) -> Self {
        ReadFault::NoMemory
    }
}

impl fmt::Display for ReadFault {
    fn fmt<W: fmt::Write>(&self, f: &mut fmt::Formatter<W>) -> fmt::Result {
        match self {
            ReadFault::NotUtf8 { line } => write!(f, "line {line} is not UTF-8"),
            ReadFault::BadLine { line } => write!(f, "line {line} is not in the grammar"),
            ReadFault::RelativeIri { line } => write!(f, "line {line} has an IRI without a scheme"),
            ReadFault::TooManyQuads => f.write_str("too many quads"),
            ReadFault::NoMemory => f.write_str("out of memory"),
        }
    }
}

impl Error for ReadFault {}

// Why a line was not taken.
#[derive(Clone, Copy, Debug, PartialEq, Eq)]
pub(crate) enum LineFault {
    NotUtf8,
    BadLine,
    RelativeIri,
    NoMemory,
}

impl From<NoMemory> for LineFault {
    ghost from_gives = { λ _ e. e ≡ LineMemory };

    fn from(_: NoMemory) -> Self {
        LineFault::NoMemory
    }
}

impl From<AllocError> for LineFault {
    ghost from_gives = { λ _ e. e ≡ LineMemory };

    fn from(_: AllocError) -> Self {
        LineFault::NoMemory
    }
}

impl<T: Drop> From<AllocFailed<T>> for LineFault {
    ghost from_gives = { λ _ e. e ≡ LineMemory };

    fn from(_: AllocFailed<T>) -> Self {
        LineFault::NoMemory
    }
}

impl LineFault {
    // The fault of a document whose first faulty line has this number and this fault.
    pub(crate) fn at_line(self, line: u64) -> ReadFault
        ensures { result ≡ fault_at line self }
    {
        match self {
            LineFault::NotUtf8 => ReadFault::NotUtf8 { line },
            LineFault::BadLine => ReadFault::BadLine { line },
            LineFault::RelativeIri => ReadFault::RelativeIri { line },
            LineFault::NoMemory => ReadFault::NoMemory,
        }
    }
}
