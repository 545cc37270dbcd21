//! Files in memory.

ghost use Rattle.std.specs.Prelude.{◌≡◌, ℕ, ◌↔◌, ◌<◌, ◌≤◌, List, [], min, length, take, IfOk, OnOk, OnErr, IsErr, None, Some, string_bytes, position};
ghost use Rattle.std.specs.Str.{bytes_eq};
ghost use Rattle.rdf_terms.specs.Lists.{AreDistinct};
ghost use Rattle.outside.specs.Faults.{HasCause};
ghost use Rattle.outside.specs.FaultPlan.{unused, FailsNext};
ghost use Rattle.outside.specs.Reads.{Takes};
ghost use Rattle.outside.specs.MemoryShelf.{MemoryShelf, files_of, names_of, bytes_of, started_name, started_rest, StartFails, after_start, amount_given, after_next, after_failure};

use crate::calls::Calls;
use crate::{Failed, Shelf};
use std::marker::Model;

// A file by its place among the files, and how many of its bytes were given.
#[derive(Clone, Copy)]
struct Place {
    file: usize,
    given: usize,
}

/// Files in memory. The calls of `start` and `next` are counted together, from 0, and fail where they are told to.
#[derive(Drop)]
pub struct MemShelf {
    files: Vec<(String, Vec<u8>)>,
    piece: usize,
    calls: Calls,
    started: Option<Place>,
}

impl Model for MemShelf {
    ghost use Rattle.std.specs.Prelude.{◌<◌};
    ghost use Rattle.std.specs.Option.{ForSome, option_and_then};
    ghost use Rattle.outside.specs.MemoryShelf.{MemoryShelf, files_of, started_at, IsPlaceIn};

    ghost Value = { MemoryShelf };

    ghost view = { λ s. record { files = files_of s.files.items; piece = s.piece; plan = s.calls; started = option_and_then (started_at (files_of s.files.items)) s.started } };

    ghost invariant = { λ s. (0 < s.piece) × ForSome s.started (IsPlaceIn (files_of s.files.items)) };
}

impl MemShelf {
    /// A shelf of files by name, whose `next` gives at most `piece` bytes. Calls with a number in `failing` fail.
    pub fn new(files: Vec<(String, Vec<u8>)>, piece: usize, failing: Vec<u64>) -> Self
        requires some_piece { 1 ≤ piece }
        requires names_differ { AreDistinct (names_of (files_of files.items)) }
        ensures { result ≡ record { files = files_of files.items; piece = piece; plan = unused failing.items; started = None } }
    {
        MemShelf {
            files,
            piece,
            calls: Calls::new(failing),
            started: None,
        }
    }
}

fn place_of(files: &[(String, Vec<u8>)], name: &str) -> Option<usize>
    ensures { result ≡ position (λ file. bytes_eq (string_bytes file.0) name.now) files.now }
{
    files.iter().position(|file| file.0.as_str() == name)
}

// Copies a front of the bytes, at most a piece, and says how long it is.
fn copy_front(bytes: &[u8], piece: usize, buf: &mut [u8]) -> usize
    ensures amount { result ≡ min piece (min (length buf.new) (length bytes.now)) }
    ensures copied { take result buf.new ≡ take result bytes.now }
{
    let amount = piece.min(buf.len()).min(bytes.len());
    buf[..amount].copy_from_slice(&bytes[..amount]);
    amount
}

impl Shelf for MemShelf {
    ghost told = { λ s name. bytes_of s.files name };

    ghost rest = { started_rest };

    ghost ready = { λ s name. started_name s ≡ Some name };

    ghost faults = { λ s _. s.plan.faults };

    fn start(&mut self, name: &str) -> Result<(), Failed>
        ensures fails { IsErr result ↔ StartFails self.old name.now }
        ensures ok { OnOk result (self.new ≡ after_start self.old name.now) }
        ensures err { OnErr result (self.new ≡ after_failure self.old) }
        ensures cause { HasCause self.old.plan.faults self.new.plan.faults result }
    {
        let fails = self.calls.count();
        let place = place_of(&self.files, name);
        match place {
            Some(file) if !fails => {
                self.started = Some(Place { file, given: 0 });
                Ok(())
            }
            _ => {
                self.started = None;
                self.calls.fail();
                Err(Failed)
            }
        }
    }

    fn next(&mut self, _name: &str, buf: &mut [u8]) -> Result<usize, Failed>
        requires { started_name self.old ≡ Some _name.now }
        ensures fails { IsErr result ↔ FailsNext self.old.plan }
        ensures amount { IfOk result (λ n. Some n ≡ amount_given self.old (length buf.new)) }
        ensures ok { IfOk result (λ n. self.new ≡ after_next self.old n) }
        ensures err { OnErr result (self.new ≡ after_failure self.old) }
        ensures bytes { Takes (started_rest self.old) (started_rest self.new) result buf.new }
        ensures cause { HasCause self.old.plan.faults self.new.plan.faults result }
    {
        if self.calls.count() {
            self.started = None;
            self.calls.fail();
            return Err(Failed);
        }
        let Some(place) = self.started else {
            unreachable!()
        };
        let file = &self.files[place.file];
        let amount = copy_front(&file.1[place.given..], self.piece, buf);
        self.started = Some(Place {
            file: place.file,
            given: place.given + amount,
        });
        Ok(amount)
    }
}
