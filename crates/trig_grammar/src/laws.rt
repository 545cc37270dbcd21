//! What holds of the grammar and its table, whatever parses by them.
ghost use Rattle.std.specs.Prelude.{◌≡◌, ◌↔◌, ◌++◌, ◌∷◌, [], ℕ, List, Some};
ghost use Rattle.trig_lexer.specs.declared.kind.Kind.{Kind};
ghost use Rattle.trig_lexer.specs.declared.kind.Kind.TheVariants.{End};
ghost use Rattle.trig_grammar.specs.declared.nonterminal.Nonterminal.{Nonterminal};
ghost use Rattle.trig_grammar.specs.Grammar.{IsSentence};
ghost use Rattle.trig_grammar.specs.Places.{column};
ghost use Rattle.trig_grammar.specs.Table.{cell, Predicts};
ghost use Rattle.trig_grammar.specs.Published.{HaveSameSentences};
ghost use Rattle.trig_grammar.specs.Reach.{EmptyIsRight, FirstIsRight, FollowIsRight, LeadsToSentences};

/// A cell of the table has the number of a production exactly where the production is one of the
/// row's, and the column's kind is among those that it may begin with, or that may follow it where
/// it may be empty.
pub fn cells_predict()
    ensures { (n : Nonterminal) (kind : Kind) (p : ℕ) → (cell n (column kind) ≡ Some p) ↔ Predicts n kind p }
{}

/// The sentences of the productions are those of the grammar as it is published, with its operators.
pub fn same_sentences()
    ensures { HaveSameSentences }
{}

/// A name may be empty, as the table has it, exactly where it derives no token.
pub fn empty_is_right()
    ensures { EmptyIsRight }
{}

/// The kinds that a name may begin with, as the table has them, are those with which something that it
/// derives begins.
pub fn first_is_right()
    ensures { FirstIsRight }
{}

/// The kinds that may follow a name, as the table has them, are those of the tokens that stand behind
/// what it derives in some sentence.
pub fn follow_is_right()
    ensures { FollowIsRight }
{}

/// What comes at the beginning of a sentence goes on to one.
pub fn leads_to_sentences()
    ensures { LeadsToSentences }
{}

/// A sentence has the end of the text as its last token and nowhere else.
pub fn end_comes_last()
    ensures last { (kinds : List Kind) → IsSentence kinds → (front : List Kind) × (kinds ≡ front ++ End ∷ []) }
    ensures alone { (front more : List Kind) → IsSentence (front ++ End ∷ more) → more ≡ [] }
{}
