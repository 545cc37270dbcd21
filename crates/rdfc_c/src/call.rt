//! A run over memory of the caller.

ghost use Rattle.std.specs.Prelude.{◌≡◌, ◌⊎◌, List};
ghost use Rattle.rdfc_cli.specs.Words.{Command, Given};
ghost use Rattle.rdfc_c.specs.Blocks.{Spells, SpellsNothing};
ghost use Rattle.rdfc_c.specs.Answers.{IsAnswered, IsNotDone, files_of};

use crate::answer::Answer;
use crate::block::run_block;
use crate::delivery::{deliver, tell};
use crate::seed::Seed;
use lent_memory::{GatheringSink, LentShelf};
use std::alloc::Global;

/// Does what the words of the block say, with these bytes as the files `first` and `second`. The output is written into
/// `out` where it fits there whole, and else `out` is left as it was.
pub fn run_lent(
    alloc: Global,
    keys: (u64, u64),
    words: &[u8],
    first: &[u8],
    second: &[u8],
    out: &mut [u8],
    answer: &mut Answer,
)
    ensures usage { answer.new.status ≡ 2 → SpellsNothing words.now }
    ensures nothing_spelled { SpellsNothing words.now → IsNotDone out.old out.new answer.new × ((answer.new.status ≡ 2) ⊎ (answer.new.status ≡ 8)) }
    ensures answer { (command : Command) (options : List Given) → Spells words.now command options →
        IsAnswered (files_of first.now second.now) command options out.old out.new answer.new }
{
    let mut shelf = LentShelf::new(first, second);
    let mut text = GatheringSink::new(alloc);
    let mut notes = GatheringSink::new(alloc);
    let seed = Seed::new(keys.0, keys.1);
    let status = run_block(alloc, seed, words, &mut shelf, &mut text, &mut notes);
    let delivery = deliver(&status, text.bytes(), out);
    tell(&status, delivery, notes.bytes(), answer);
}
