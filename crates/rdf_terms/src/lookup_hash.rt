//! The hash by which a table finds a term: that of its texts, under the keys of the table.
ghost use Rattle.std.specs.Prelude.{◌≡◌, ◌<◌, length, fold};
ghost use Rattle.rdf_terms.specs.FedText.{last_word, fed_text};
ghost use Rattle.rdf_terms.specs.LookupHash.{text_hash, texts_hash, text_of_kind, lookup_hash};
ghost use Rattle.rdf_terms.specs.References.{kind_of, term_of};

use crate::{LiteralKindRef, TermRef};
use std::hash::{BuildHasher, Hasher, RandomState};

// Fewer than eight bytes, zeros up to the seventh, and how many bytes they are.
fn last_word(bytes: &[u8]) -> [u8; 8]
    requires { length bytes.now < 8 }
    ensures { result ≡ last_word bytes.now }
{
    let mut word = [0; 8];
    word[..bytes.len()].copy_from_slice(bytes);
    word[7] = bytes.len() as u8;
    word
}

// Whole words alone, which a hasher takes faster than bytes one at a time.
#[inline]
fn feed<H: Hasher>(state: &mut H, text: &str)
    ensures { state.new ≡ fold H.write state.old (fed_text text.now) }
{
    let bytes = text.as_bytes();
    let (words, behind) = bytes.split_at(bytes.len() - bytes.len() % 8);
    state.write(words);
    state.write(&last_word(behind));
}

fn text_hash(keys: RandomState, text: &str) -> u64
    ensures { result ≡ text_hash keys text.now }
{
    let mut state = keys.build_hasher();
    feed(&mut state, text);
    state.finish()
}

fn texts_hash(keys: RandomState, first: &str, second: &str) -> u64
    ensures { result ≡ texts_hash keys first.now second.now }
{
    let mut state = keys.build_hasher();
    state.write_u64(first.len() as u64);
    feed(&mut state, first);
    feed(&mut state, second);
    state.finish()
}

fn text_of_kind(kind: LiteralKindRef<'_>) -> &str
    ensures { result.now ≡ text_of_kind (kind_of kind.entry) }
{
    match kind {
        LiteralKindRef::Typed(iri) => iri,
        LiteralKindRef::Tagged(tag) => tag,
    }
}

// The hash of the term under these keys. That of a node is its number, which no file chooses.
pub(crate) fn lookup_hash(keys: RandomState, term: TermRef<'_>) -> u64
    ensures { result ≡ lookup_hash keys (term_of term.entry) }
{
    match term {
        TermRef::Iri(iri) => text_hash(keys, iri),
        TermRef::Blank(node) => node as u64,
        TermRef::Literal(literal) => {
            texts_hash(keys, literal.lexical, text_of_kind(literal.kind))
        }
    }
}
