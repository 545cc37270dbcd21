//! Two files that are bytes of the caller.

ghost use Rattle.std.specs.Prelude.{◌≡◌, min, length, take, IsSome};
ghost use Rattle.std.specs.Option.{option_map};
ghost use Rattle.lent_memory.specs.LentFiles.{lent_name, told_of, faults_of, files_in};

use outside::{Failed, Shelf};

// Which of the two files.
#[derive(Clone, Copy)]
enum Place {
    First,
    Second,
}

/// Two files that are bytes of the caller, under the names `first` and `second`. They are read where they lie, and no
/// call on them fails. With every other name no file is lent, and `start` fails.
#[derive(Drop)]
pub struct LentShelf<'a> {
    first: &'a [u8],
    second: &'a [u8],
    rest: Option<&'a [u8]>,
    faults: u64,
}

fn place_of(name: &str) -> Option<Place>
    ensures { result ≡ lent_name name.now }
{
    if name == "first" {
        return Some(Place::First);
    }
    if name == "second" {
        return Some(Place::Second);
    }
    None
}

// Copies a front of the bytes, as many as there is room for, and says how many.
fn copy_front(bytes: &[u8], buf: &mut [u8]) -> usize
    ensures amount { result ≡ min (length buf.new) (length bytes.now) }
    ensures copied { take result buf.new ≡ take result bytes.now }
{
    let amount = buf.len().min(bytes.len());
    buf[..amount].copy_from_slice(&bytes[..amount]);
    amount
}

impl<'a> LentShelf<'a> {
    /// A shelf of these files. None is started yet.
    pub fn new(first: &'a [u8], second: &'a [u8]) -> Self
        ensures files { files_in result ≡ record { first = first.now; second = second.now } }
        ensures no_faults { result.faults ≡ 0 }
    {
        LentShelf {
            first,
            second,
            rest: None,
            faults: 0,
        }
    }
}

impl<'a> Shelf for LentShelf<'a> {
    ghost told = { λ s name. told_of (files_in s) name };

    ghost rest = { λ s. option_map (λ rest. rest.now) s.rest };

    ghost ready = { λ s _. IsSome s.rest };

    ghost faults = { λ s name. faults_of s.faults name };

    fn start(&mut self, name: &str) -> Result<(), Failed> {
        match place_of(name) {
            Some(Place::First) => self.rest = Some(self.first),
            Some(Place::Second) => self.rest = Some(self.second),
            None => {
                self.rest = None;
                self.faults = self.faults.saturating_add(1);
                return Err(Failed);
            }
        }
        Ok(())
    }

    fn next(&mut self, _name: &str, buf: &mut [u8]) -> Result<usize, Failed> {
        let Some(rest) = self.rest else {
            unreachable!()
        };
        let amount = copy_front(rest, buf);
        self.rest = Some(&rest[amount..]);
        Ok(amount)
    }
}
