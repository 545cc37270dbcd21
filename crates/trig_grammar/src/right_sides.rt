//! The right sides of the productions.
ghost use Rattle.std.specs.Prelude.{◌≡◌, ◌<◌, reverse};
ghost use Rattle.trig_grammar.specs.Table.{body_at};

use crate::Nonterminal::{
    AfterLabel, Base, BlankNode, Block, Collection, Directive, Document, Iri, Items,
    LabelOrSubject, Literal, MaybePredicate, MaybePredicates, MaybeTriples, MoreObjects,
    MorePredicates, MoreTriples, Object, Objects, Predicates, PrefixId, PropertyList, RdfLiteral,
    SparqlBase, SparqlPrefix, Statement, Subject, Suffix, Triples, Triples2, TriplesBlock,
    TriplesOrGraph, Verb, WrappedGraph,
};
use crate::Symbol::{self, Name, Token};
use trig_lexer::Kind::{
    Anon, AtBase, AtPrefix, BlankLabel, Carets, Comma, Decimal, Dot, Double, Integer, IriRef,
    LangTag, LeftBrace, LeftBracket, LeftParen, PnameLn, PnameNs, Quoted, RightBrace, RightBracket,
    RightParen, Semicolon, WordA, WordBase, WordFalse, WordGraph, WordPrefix, WordTrue,
};

// The symbols that the production of this number stands for, the last one first.
#[tactic(auto, unfolding(crate::specs::Grammar::rules))]
pub(crate) fn right_side(production: u8) -> &'static [Symbol]
    requires { production < 70 }
    ensures { result.now ≡ reverse (body_at production) }
{
    match production {
        0 => &[],
        1 => &[Name(Document), Name(Statement)],
        2 => &[Name(Directive)],
        3 => &[Name(Block)],
        4 => &[Name(TriplesOrGraph)],
        5 => &[Name(WrappedGraph)],
        6 => &[Name(Triples2)],
        7 => &[Name(WrappedGraph), Name(LabelOrSubject), Token(WordGraph)],
        8 => &[Name(AfterLabel), Name(LabelOrSubject)],
        9 => &[Name(WrappedGraph)],
        10 => &[Token(Dot), Name(Predicates)],
        11 => &[Token(Dot), Name(MaybePredicates), Name(PropertyList)],
        12 => &[Token(Dot), Name(Predicates), Name(Collection)],
        13 => &[Token(RightBrace), Name(MaybeTriples), Token(LeftBrace)],
        14 => &[],
        15 => &[Name(TriplesBlock)],
        16 => &[Name(MoreTriples), Name(Triples)],
        17 => &[],
        18 => &[Name(MaybeTriples), Token(Dot)],
        19 => &[Name(Iri)],
        20 => &[Name(BlankNode)],
        21 => &[Name(PrefixId)],
        22 => &[Name(Base)],
        23 => &[Name(SparqlPrefix)],
        24 => &[Name(SparqlBase)],
        25 => &[Token(Dot), Token(IriRef), Token(PnameNs), Token(AtPrefix)],
        26 => &[Token(Dot), Token(IriRef), Token(AtBase)],
        27 => &[Token(IriRef), Token(PnameNs), Token(WordPrefix)],
        28 => &[Token(IriRef), Token(WordBase)],
        29 => &[Name(Predicates), Name(Subject)],
        30 => &[Name(MaybePredicates), Name(PropertyList)],
        31 => &[],
        32 => &[Name(Predicates)],
        33 => &[Name(MorePredicates), Name(Objects), Name(Verb)],
        34 => &[],
        35 => &[Name(MorePredicates), Name(MaybePredicate), Token(Semicolon)],
        36 => &[],
        37 => &[Name(Objects), Name(Verb)],
        38 => &[Name(MoreObjects), Name(Object)],
        39 => &[],
        40 => &[Name(MoreObjects), Name(Object), Token(Comma)],
        41 => &[Name(Iri)],
        42 => &[Token(WordA)],
        43 => &[Name(Iri)],
        44 => &[Name(BlankNode)],
        45 => &[Name(Collection)],
        46 => &[Name(Iri)],
        47 => &[Name(BlankNode)],
        48 => &[Name(Collection)],
        49 => &[Name(PropertyList)],
        50 => &[Name(Literal)],
        51 => &[Name(RdfLiteral)],
        52 => &[Token(Integer)],
        53 => &[Token(Decimal)],
        54 => &[Token(Double)],
        55 => &[Token(WordTrue)],
        56 => &[Token(WordFalse)],
        57 => &[Name(Suffix), Token(Quoted)],
        58 => &[],
        59 => &[Token(LangTag)],
        60 => &[Name(Iri), Token(Carets)],
        61 => &[Token(RightBracket), Name(Predicates), Token(LeftBracket)],
        62 => &[Token(RightParen), Name(Items), Token(LeftParen)],
        63 => &[],
        64 => &[Name(Items), Name(Object)],
        65 => &[Token(IriRef)],
        66 => &[Token(PnameLn)],
        67 => &[Token(PnameNs)],
        68 => &[Token(BlankLabel)],
        _ => &[Token(Anon)],
    }
}
