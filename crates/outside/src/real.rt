//! Files and writers of std.

ghost use Rattle.std.specs.Prelude.{◌≡◌, ℕ, List, None, IsSome};

use crate::again::{flush, read, write};
use crate::{Failed, Shelf, Sink};
use std::fs::File;
use std::io::{Read, Write};
use std::rt::Files;

/// Real files, opened with a runtime. Nothing is told of their bytes. One count of faults serves every name, and
/// while a file is started every name counts as ready. A read that a signal interrupted is made again.
#[derive(Drop)]
pub struct FileShelf<'r, R: Files> {
    rt: &'r R,
    file: Option<R::File>,
    faults: u64,
}

impl<'r, R: Files> FileShelf<'r, R> {
    /// A shelf that opens files with this runtime. None is started yet.
    pub fn new(rt: &'r R) -> Self
        ensures none_ready { (name : List ℕ) → ¬ (⟦<FileShelf<'r, R> as Shelf>⟧.ready result name) }
        ensures no_faults { (name : List ℕ) → ⟦<FileShelf<'r, R> as Shelf>⟧.faults result name ≡ 0 }
    {
        FileShelf {
            rt,
            file: None,
            faults: 0,
        }
    }
}

impl<'r, R: Files> Shelf for FileShelf<'r, R> {
    ghost told = { λ _ _. None };

    ghost rest = { λ _. None };

    ghost ready = { λ s _. IsSome s.file };

    ghost faults = { λ s _. s.faults };

    fn start(&mut self, name: &str) -> Result<(), Failed> {
        match File::open(self.rt, name) {
            Ok(file) => {
                self.file = Some(file);
                Ok(())
            }
            Err(_) => {
                self.file = None;
                self.faults = self.faults.saturating_add(1);
                Err(Failed)
            }
        }
    }

    fn next(&mut self, _name: &str, buf: &mut [u8]) -> Result<usize, Failed> {
        if let Some(file) = &mut self.file {
            if let Ok(count) = read(file, buf) {
                return Ok(count);
            }
        }
        self.file = None;
        self.faults = self.faults.saturating_add(1);
        Err(Failed)
    }
}

/// A writer of std, to which each `put` writes once and which it then flushes. Nothing is told of the bytes.
/// A call that a signal interrupted is made again. Any other error of the writer is a fault, and so is a write that takes
/// none of some bytes.
#[derive(Drop)]
pub struct StdSink<W: Write + Drop> {
    writer: W,
    faults: u64,
}

impl<W: Write + Drop> StdSink<W> {
    /// A sink that puts its bytes into this writer.
    pub fn new(writer: W) -> Self
        ensures { ⟦<StdSink<W> as Sink>⟧.faults result ≡ 0 }
    {
        StdSink { writer, faults: 0 }
    }
}

impl<W: Write + Drop> Sink for StdSink<W> {
    ghost taken = { λ _. None };

    ghost faults = { λ s. s.faults };

    fn put(&mut self, bytes: &[u8]) -> Result<usize, Failed> {
        if let Ok(count) = write(&mut self.writer, bytes) {
            if (count > 0 || bytes.is_empty()) && flush(&mut self.writer).is_ok() {
                return Ok(count);
            }
        }
        self.faults = self.faults.saturating_add(1);
        Err(Failed)
    }
}
