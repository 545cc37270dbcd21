//! The words of a command in one block, and the run that they ask for.

ghost use Rattle.std.specs.Prelude.{◌≡◌, ◌⊎◌, List, map, string_bytes, IfOk, MatchOption};
ghost use Rattle.rdf_terms.specs.Lists.{Text};
ghost use Rattle.rdfc_cli.specs.Answers.{seen, Answers};
ghost use Rattle.rdfc_cli.specs.Notes.{IsNoted};
ghost use Rattle.rdfc_cli.specs.Options.{settings_in, syntax_in};
ghost use Rattle.rdfc_cli.specs.Words.{Command, Given, file_word};
ghost use Rattle.rdfc_c.specs.Blocks.{AreWords, Spells, SpellsNothing};

use crate::seed::Seed;
use outside::{Shelf, Sink};
use rdf_terms::NoMemory;
use rdfc_cli::{Status, put_all, put_usage, run};
use std::alloc::Global;
use std::hash::RandomState;

// The words of a block in which each is ended by a byte 0. `None` where it is none of words.
fn words_of(alloc: Global, block: &[u8]) -> Result<Option<Vec<String>>, NoMemory>
    ensures only { IfOk result (λ found. MatchOption found ((words : List Text) → ¬ (AreWords block.now words)) (λ words. (all : List Text) → AreWords block.now all → all ≡ map string_bytes words.items)) }
    ensures some { IfOk result (λ found. MatchOption found (Unit {0}) (λ words. AreWords block.now (map string_bytes words.items))) }
{
    let Ok(text) = str::from_utf8(block) else {
        return Ok(None);
    };
    let mut rest = text;
    let mut words = Vec::new(alloc);
    while !rest.is_empty() {
        let Some((word, more)) = rest.split_once('\0') else {
            return Ok(None);
        };
        words.push(String::from_str(alloc, word)?)?;
        rest = more;
    }
    Ok(Some(words))
}

// The run that the words of a block ask for.
pub(crate) fn run_block<S: Shelf, K: Sink, N: Sink>(
    alloc: Global,
    seed: Seed,
    block: &[u8],
    shelf: &mut S,
    out: &mut K,
    notes: &mut N,
) -> Status
    ensures usage { result ≡ Status.Usage → SpellsNothing block.now }
    ensures nothing_spelled { SpellsNothing block.now → (result ≡ Status.Usage) ⊎ (result ≡ Status.NoMemory) }
    ensures answer { (command : Command) (options : List Given) → Spells block.now command options →
        Answers K.taken K.faults (seen (syntax_in options) S.told S.faults shelf.old shelf.new) command (settings_in options) out.old out.new result }
    ensures note { (command : Command) (options : List Given) → Spells block.now command options →
        IsNoted N.taken N.faults notes.old notes.new (file_word command) result }
{
    let Ok(keys) = RandomState::new(&seed) else {
        return out_of_memory(notes);
    };
    match words_of(alloc, block) {
        Ok(Some(words)) => run(alloc, keys, &words, shelf, out, notes),
        Ok(None) => {
            put_usage(notes);
            Status::Usage
        }
        Err(NoMemory) => out_of_memory(notes),
    }
}

// What the program notes where memory is refused for its words.
fn out_of_memory<N: Sink>(notes: &mut N) -> Status
    ensures status { result ≡ Status.NoMemory }
    ensures note { (command : Command) → IsNoted N.taken N.faults notes.old notes.new (file_word command) result }
{
    let _ = put_all(notes, b"rdfc: out of memory\n");
    Status::NoMemory
}
