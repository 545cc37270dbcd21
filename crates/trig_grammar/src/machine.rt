//! The steps of the parser on its stack.
ghost use Rattle.std.specs.Prelude.{◌≡◌, ◌<◌, ◌↔◌, true, false, reverse, IfOk, OnOk};
ghost use Rattle.trig_grammar.specs.Places.{column, row};
ghost use Rattle.trig_grammar.specs.Table.{cell, IsTable, IsUpper, IsLower};
ghost use Rattle.trig_grammar.specs.Grammar.{start};
ghost use Rattle.trig_grammar.specs.Stack.{Fits, Takes, TakesNot};

use crate::right_sides::right_side;
use crate::table::{LOWER, UPPER};
use crate::{Ll1, Nonterminal, Symbol};
use rdf_terms::NoMemory;
use std::alloc::Global;
use trig_lexer::Kind;

fn column(kind: Kind) -> usize
    ensures is { result ≡ column kind }
    ensures within { result < 29 }
{
    kind as usize
}

fn row(name: Nonterminal) -> usize
    ensures is { result ≡ row name }
    ensures within { result < 34 }
{
    name as usize
}

fn upper() -> [[Option<u8>; 29]; 17]
    ensures { IsUpper result }
{
    UPPER
}

fn lower() -> [[Option<u8>; 29]; 17]
    ensures { IsLower result }
{
    LOWER
}

// The table of the grammar, put together of its halves.
pub(crate) fn table() -> Ll1<34, 29>
    ensures { IsTable result.cells }
{
    let upper = upper();
    let lower = lower();
    Ll1::new([
        upper[0], upper[1], upper[2], upper[3], upper[4], upper[5], upper[6], upper[7], upper[8],
        upper[9], upper[10], upper[11], upper[12], upper[13], upper[14], upper[15], upper[16],
        lower[0], lower[1], lower[2], lower[3], lower[4], lower[5], lower[6], lower[7], lower[8],
        lower[9], lower[10], lower[11], lower[12], lower[13], lower[14], lower[15], lower[16],
    ])
}

// The stack before the first token.
pub(crate) fn begun(alloc: Global) -> Result<Vec<Symbol>, NoMemory>
    ensures { IfOk result (λ stack. reverse stack.items ≡ start) }
{
    let mut stack = Vec::new(alloc);
    stack.push(Symbol::Token(Kind::End))?;
    stack.push(Symbol::Name(Nonterminal::Document))?;
    Ok(stack)
}

// The number of the production that stands for the name before the token.
#[tactic(auto, unfolding(crate::specs::Table::IsTable))]
fn production(table: &Ll1<34, 29>, name: Nonterminal, kind: Kind) -> Option<u8>
    requires { IsTable table.now.cells }
    ensures { result ≡ cell name (column kind) }
{
    table.rule(row(name), column(kind))
}

// Takes the next token off the stack, and says whether a sentence goes on with it.
pub(crate) fn take(
    table: &Ll1<34, 29>,
    stack: &mut Vec<Symbol>,
    kind: Kind,
) -> Result<bool, NoMemory>
    requires table { IsTable table.now.cells }
    requires fits { Fits (reverse stack.old.items) }
    ensures takes { IfOk result (λ taken. taken ≡ true → Takes (reverse stack.old.items) kind (reverse stack.new.items)) }
    ensures not { IfOk result (λ taken. taken ≡ false → TakesNot (reverse stack.old.items) kind) }
    ensures fits { OnOk result (Fits (reverse stack.new.items)) }
{
    while let Some(symbol) = stack.pop() {
        match symbol {
            Symbol::Token(wanted) => return Ok(wanted == kind),
            Symbol::Name(name) => match production(table, name, kind) {
                Some(number) => stack.extend_from_slice(right_side(number))?,
                None => return Ok(false),
            },
        }
    }
    Ok(false)
}
