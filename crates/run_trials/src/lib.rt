//! Runs on files in memory: what the tests of the commands are made of.
#![tactic(auto)]

pub mod documents;

use outside::{MemShelf, MemSink};
use rdf_terms::NoMemory;
use rdfc_cli::{Status, run};
use std::alloc::Global;
use std::hash::RandomState;

// How many bytes a sink has room for, and how many the shelf and the sinks pass in a call.
const ROOM: usize = 8000;

const SHELF_PIECE: usize = 7;

const SINK_PIECE: usize = 10;

/// A run on the file `f` of this text, and the file `g` of the other: the words, and the calls that fail on the shelf,
/// on the output and on the notes, counted from 0.
#[derive(Clone, Copy)]
pub struct Trial<'a> {
    pub words: &'a [&'a str],
    pub text: &'a str,
    pub other: &'a str,
    pub shelf: &'a [u64],
    pub out: &'a [u64],
    pub notes: &'a [u64],
}

/// A run with no failed call on the file `f` of this text, and `g` of none.
pub fn plain<'a>(words: &'a [&'a str], text: &'a str) -> Trial<'a> {
    Trial {
        words,
        text,
        other: "",
        shelf: &[],
        out: &[],
        notes: &[],
    }
}

/// How a run ends: the code of its status, what it writes and what it notes.
#[derive(Clone, Copy, Debug, PartialEq, Eq)]
pub struct Ending<'a> {
    pub code: u8,
    pub out: &'a [u8],
    pub notes: &'a [u8],
}

/// With success, and this is written.
pub fn done(out: &str) -> Ending<'_> {
    Ending {
        code: 0,
        out: out.as_bytes(),
        notes: &[],
    }
}

/// With this code and note, and nothing is written.
pub fn nothing_written(code: u8, note: &str) -> Ending<'_> {
    Ending {
        code,
        out: &[],
        notes: note.as_bytes(),
    }
}

/// A run that has ended.
#[derive(Drop)]
pub struct Ended {
    pub status: Status,
    out: MemSink,
    notes: MemSink,
}

impl Ended {
    pub fn ending(&self) -> Ending<'_> {
        Ending {
            code: self.status.code(),
            out: self.out.bytes(),
            notes: self.notes.bytes(),
        }
    }
}

fn shelf_of(alloc: Global, trial: &Trial<'_>) -> Result<MemShelf, NoMemory> {
    let mut files = Vec::new(alloc);
    let text = trial.text.as_bytes().to_vec(alloc)?;
    files.push((String::from_str(alloc, "f")?, text))?;
    let other = trial.other.as_bytes().to_vec(alloc)?;
    files.push((String::from_str(alloc, "g")?, other))?;
    Ok(MemShelf::new(files, SHELF_PIECE, trial.shelf.to_vec(alloc)?))
}

fn sink(alloc: Global, failing: &[u64]) -> Result<MemSink, NoMemory> {
    MemSink::new(alloc, ROOM, SINK_PIECE, failing.to_vec(alloc)?)
}

/// Makes the run.
pub fn outcome_of(alloc: Global, keys: RandomState, trial: &Trial<'_>) -> Result<Ended, NoMemory> {
    let mut shelf = shelf_of(alloc, trial)?;
    let mut words = Vec::new(alloc);
    for word in trial.words {
        words.push(String::from_str(alloc, word)?)?;
    }
    let mut out = sink(alloc, trial.out)?;
    let mut notes = sink(alloc, trial.notes)?;
    let status = run(alloc, keys, &words, &mut shelf, &mut out, &mut notes);
    Ok(Ended { status, out, notes })
}
