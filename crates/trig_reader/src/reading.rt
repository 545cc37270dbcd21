//! A text while its tokens are taken.
ghost use Rattle.std.specs.Prelude.{◌≡◌, ◌++◌, ◌∷◌, ◌↔◌, [], List, Option, IsTrue, IfSome, IfOk, IfErr, OnOk};
ghost use Rattle.std.specs.Option.{option_copied};
ghost use Rattle.rdf_terms.specs.Lists.{Text};
ghost use Rattle.trig_lexer.specs.declared.kind.Kind.TheVariants.{End};
ghost use Rattle.trig_lexer.specs.declared.token.Token.{Token as TokenOf};
ghost use Rattle.trig_terms.specs.Meaning.{begin};
ghost use Rattle.trig_builder.specs.Building.{IsReady, IsWhole, Builds};
ghost use Rattle.trig_reader.specs.Tokens.{is_string, IsNextBehind};
ghost use Rattle.trig_reader.specs.Document.{IsCauseOf};
ghost use Rattle.trig_reader.specs.Reading.{IsCut, IsAtNext, HasTold, HasTaken, HasTakenAll, IsDraftOf, fault_at, place_told};
ghost use Rattle.trig_reader.specs.declared.reading.Reading.{Reading as ReadingOf};

use crate::TrigFault;
use crate::line::line_at;
use rdf_terms::{Draft, NoMemory};
use std::alloc::Global;
use std::hash::RandomState;
use trig_builder::{Builder, Missing};
use trig_grammar::Parser;
use trig_lexer::{Kind, Token, next_token, token_start};
use trig_terms::leaf_of;

// What is held of a text of which some tokens were taken.
#[derive(Drop)]
pub(crate) struct Reading<'a> {
    parser: Parser,
    builder: Builder<'a>,
    // Where the last token begins before which each use had its definition.
    last_told: usize,
}

fn is_end(kind: Kind) -> bool
    ensures { IsTrue result ↔ (kind ≡ End) }
{
    matches!(kind, Kind::End)
}

fn is_string(kind: Kind) -> bool
    ensures { result ≡ is_string kind }
{
    matches!(kind, Kind::Quoted)
}

// Where the last token begins that was told, once the one that begins here is.
fn place_told(missing: Option<Missing>, last: usize, start: usize) -> usize
    ensures { result ≡ place_told missing last start }
{
    match missing {
        None => start,
        Some(_) => last,
    }
}

// The fault of a use in this line that has no definition.
fn undefined(missing: Missing, line: u64) -> TrigFault
    ensures { result ≡ fault_at missing line }
{
    match missing {
        Missing::Prefix => TrigFault::UnknownPrefix { line },
        Missing::Base => TrigFault::NoBase { line },
    }
}

impl<'a> Reading<'a> {
    // A text of which no token was taken. The keys are those of the hashes of tables; no answer
    // depends on them.
    pub(crate) fn new(
        alloc: Global,
        keys: RandomState,
        base: Option<&str>,
    ) -> Result<Self, NoMemory>
        requires { IfSome base (λ b. IsWhole b.now) }
        ensures taken { IfOk result (λ reading. (text : Text) → HasTaken text reading [] reading) }
        ensures builds { IfOk result (λ reading. Builds reading.builder (begin (option_copied base.entry))) }
    {
        Ok(Reading {
            parser: Parser::new(alloc)?,
            builder: Builder::new(alloc, keys, base)?,
            last_told: 0,
        })
    }

    // What the token says is said.
    fn tell(&mut self, alloc: Global, text: &'a str, token: Token) -> Result<(), NoMemory>
        requires ready { IsReady self.old.builder }
        requires token { IsCut text.now token }
        ensures ready { OnOk result (IsReady self.new.builder) }
        ensures told { OnOk result ((base : Option Text) (tokens : List TokenOf) → HasTold text.now base tokens self.old.builder self.old.last_told → HasTold text.now base (tokens ++ token ∷ []) self.new.builder self.new.last_told) }
        ensures parser { self.new.parser ≡ self.old.parser }
    {
        self.last_told = place_told(self.builder.missing(), self.last_told, token.start);
        let leaf = leaf_of(alloc, token.kind, &text[token.start..token.end])?;
        self.builder.step(leaf)
    }

    // Takes the next token. Where no document goes on with it, the text is none.
    fn take(&mut self, alloc: Global, text: &'a str, token: Token) -> Result<(), TrigFault>
        requires { IsAtNext text.now self.old token }
        ensures taken { OnOk result ((first : ReadingOf) (tokens : List TokenOf) → HasTaken text.now first tokens self.old → IsNextBehind text.now tokens token → HasTaken text.now first (tokens ++ token ∷ []) self.new) }
        ensures err { IfErr result (λ fault. (base : Option Text) → IsCauseOf text.now base fault) }
    {
        if !self.parser.take(token.kind)? {
            let line = line_at(text.as_bytes(), token.start);
            return Err(TrigFault::BadTrig { line });
        }
        self.tell(alloc, text, token)?;
        Ok(())
    }

    // Takes the tokens of the text, one behind the other, up to its end.
    pub(crate) fn take_all(&mut self, alloc: Global, text: &'a str) -> Result<(), TrigFault>
        requires { HasTaken text.now self.old [] self.old }
        ensures taken { OnOk result (HasTakenAll text.now self.old self.new) }
        ensures err { IfErr result (λ fault. (base : Option Text) → IsCauseOf text.now base fault) }
    {
        let mut place = 0;
        let mut after_string = false;
        loop {
            let Some(token) = next_token(text, place, after_string) else {
                let line = line_at(text.as_bytes(), token_start(text, place));
                return Err(TrigFault::BadTrig { line });
            };
            self.take(alloc, text, token)?;
            if is_end(token.kind) {
                return Ok(());
            }
            place = token.end;
            after_string = is_string(token.kind);
        }
    }

    // What the text says, all of whose tokens were taken.
    pub(crate) fn finish(self, text: &str) -> Result<Draft, TrigFault>
        ensures ok { IfOk result (λ draft. (first : ReadingOf) (base : Option Text) → HasTakenAll text.now first self.entry → Builds first.builder (begin base) → IsDraftOf text.now base draft) }
        ensures err { IfErr result (λ fault. (first : ReadingOf) (base : Option Text) → HasTakenAll text.now first self.entry → Builds first.builder (begin base) → IsCauseOf text.now base fault) }
    {
        let Reading {
            parser: _,
            builder,
            last_told,
        } = self;
        match builder.missing() {
            Some(missing) => Err(undefined(missing, line_at(text.as_bytes(), last_told))),
            None => Ok(builder.into_draft()),
        }
    }
}
