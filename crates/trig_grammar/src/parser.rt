//! The parser: it takes tokens one by one, for as long as a sentence goes on with them.
ghost use Rattle.std.specs.Prelude.{◌≡◌, ◌++◌, ◌∷◌, [], List, true, false, reverse, IfOk, OnOk};
ghost use Rattle.trig_lexer.specs.declared.kind.Kind.{Kind};
ghost use Rattle.trig_lexer.specs.declared.kind.Kind.TheVariants.{End};
ghost use Rattle.trig_grammar.specs.Grammar.{IsSentence, BeginsSentence};
ghost use Rattle.trig_grammar.specs.Stack.{Fits, IsBehind};

use crate::machine::{begun, table, take};
use crate::{Ll1, Symbol};
use rdf_terms::NoMemory;
use std::alloc::Global;
use std::marker::Model;
use trig_lexer::Kind;

/// A predictive parser of TriG (RDF 1.1 TriG, section 4.5). It keeps no tree, but a stack of its own
/// with the symbols that the rest of a sentence has to spell.
#[derive(Drop)]
pub struct Parser {
    table: Ll1<34, 29>,
    stack: Vec<Symbol>,
}

impl Model for Parser {
    ghost use Rattle.std.specs.Prelude.{List, reverse};
    ghost use Rattle.trig_grammar.specs.Table.{IsTable};
    ghost use Rattle.trig_grammar.specs.declared.symbol.Symbol.{Symbol};

    ghost Value = { List Symbol };

    ghost view = { λ p. reverse p.stack.items };

    ghost invariant = { λ p. IsTable p.table.cells };
}

impl Parser {
    /// The parser before the first token.
    pub fn new(alloc: Global) -> Result<Self, NoMemory>
        ensures { IfOk result (IsBehind []) }
    {
        Ok(Parser {
            table: table(),
            stack: begun(alloc)?,
        })
    }

    /// Takes the next token, and answers whether a sentence goes on with it. Once one was not taken, or
    /// memory was refused, the parser stands for nothing.
    pub fn take(&mut self, kind: Kind) -> Result<bool, NoMemory>
        requires { Fits self.old }
        ensures goes_on { IfOk result (λ taken. taken ≡ true → (front : List Kind) → IsBehind front self.old → IsBehind (front ++ kind ∷ []) self.new) }
        ensures ends { IfOk result (λ taken. taken ≡ true → kind ≡ End → (front : List Kind) → IsBehind front self.old → IsSentence (front ++ kind ∷ [])) }
        ensures stops { IfOk result (λ taken. taken ≡ false → (front : List Kind) → IsBehind front self.old → ¬ (BeginsSentence (front ++ kind ∷ []))) }
    {
        take(&self.table, &mut self.stack, kind)
    }
}
