//! `rdfc` for callers in C: one run, over bytes of the caller.
#![tactic(auto)]

ghost use Rattle.std.specs.Prelude.{◌≡◌, ◌⊎◌, List};
ghost use Rattle.lent_memory.specs.LentFiles.{LentFiles};
ghost use Rattle.rdfc_cli.specs.Words.{Command, Given};
ghost use Rattle.rdfc_c.specs.Blocks.{Spells, SpellsNothing};
ghost use Rattle.rdfc_c.specs.Answers.{IsAnswered, IsNotDone, files_of};

pub use answer::{Answer, NO_ROOM, NOTE_LEN};
pub use call::run_lent;

mod answer;
mod block;
mod call;
mod delivery;
pub mod laws;
mod seed;

use std::alloc::Global;

/// Does what the words say, with `first` and `second` as the bytes of the files of these names, and writes into `out`
/// what the program writes to its output. The words are ended by a byte 0 each. `key0` and `key1` are the keys of the
/// hashes of all tables that are looked up by what a file states; they change no answer. Gives the status of the answer.
#[unsafe(no_mangle)]
pub extern "C" fn rdfc_run(
    alloc: Global,
    key0: u64,
    key1: u64,
    words: &[u8],
    first: &[u8],
    second: &[u8],
    out: &mut [u8],
    answer: &mut Answer,
) -> u32
    ensures status { result ≡ answer.new.status }
    ensures usage { answer.new.status ≡ 2 → SpellsNothing words.now }
    ensures nothing_spelled { SpellsNothing words.now → IsNotDone out.old out.new answer.new × ((answer.new.status ≡ 2) ⊎ (answer.new.status ≡ 8)) }
    ensures answer { (command : Command) (options : List Given) → Spells words.now command options →
        IsAnswered (files_of first.now second.now) command options out.old out.new answer.new }
{
    run_lent(alloc, (key0, key1), words, first, second, out, answer);
    answer.status
}
