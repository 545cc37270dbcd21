//! The hash of one related blank node.

ghost use Rattle.std.specs.Prelude.{◌≡◌, ◌≤◌, ◌++◌, List, ℕ, IfSome, MatchOption};
ghost use Rattle.rdf_terms.specs.Numeral.{numeral};
ghost use Rattle.canon_model.specs.Issuer.{identifier_of, label_or};
ghost use Rattle.canon_model.specs.Meaning.{meaning};
ghost use Rattle.canon_model.specs.RelatedHash.{position_letter, predicate_part, related_input};

use canon_model::{HexHash, Position, Profile};
use id_issuer::Issuer;
use itoa::Buffer;
use profile_hash::hash_of_pieces;
use rdf_terms::Prefix;

// The letter of the position, the predicate where it counts, and what stands behind it (steps 1 and 2).
fn position_and_predicate(
    predicate: &str,
    position: Position,
) -> (&'static [u8], &[u8], &'static [u8])
    ensures { result.0.now ++ (result.1.now ++ result.2.now) ≡ position_letter position ++ predicate_part position predicate.now }
{
    match position {
        Position::Subject => (b"s<", predicate.as_bytes(), b">"),
        Position::Object => (b"o<", predicate.as_bytes(), b">"),
        Position::Graph => (b"g", b"", b""),
    }
}

// `_:`, and the prefix and number of the identifier that a node has: the canonical one where there is one (step 3).
fn identifier(canon: &Issuer, issuer: &Issuer, node: u32) -> Option<(&'static [u8], u32)>
    requires canonical { canon.now.prefix ≡ Prefix.Canonical }
    requires temporary { issuer.now.prefix ≡ Prefix.Temporary }
    ensures number { IfSome result (λ found. found.1 ≤ u32.MAX) }
    ensures label { (other : List ℕ) → MatchOption result (label_or (identifier_of canon.now.list issuer.now.list node) other ≡ other) (λ found. label_or (identifier_of canon.now.list issuer.now.list node) other ≡ found.0.now ++ numeral found.1) }
{
    if let Some(place) = canon.id_of(node) {
        return Some((b"_:c14n", place));
    }
    let place = issuer.id_of(node)?;
    Some((b"_:b", place))
}

// The hash of these texts, one after the other.
fn hash_in_turn<'a>(
    letter: &'a [u8],
    name: &'a [u8],
    close: &'a [u8],
    prefix: &'a [u8],
    number: &'a [u8],
    profile: Profile,
) -> HexHash
    ensures { result ≡ (meaning profile).hash (letter.now ++ (name.now ++ (close.now ++ (prefix.now ++ number.now)))) }
{
    hash_of_pieces(&[letter, name, close, prefix, number], profile)
}

/// The hash of a related blank node with this first-degree hash, which a quad with this predicate
/// mentions in this position (RDF Dataset Canonicalization, section 4.7). What is hashed is not put
/// together, and no memory is asked for.
pub fn related(
    first: &HexHash,
    canon: &Issuer,
    issuer: &Issuer,
    node: u32,
    predicate: &str,
    position: Position,
    profile: Profile,
) -> HexHash
    requires canonical { canon.now.prefix ≡ Prefix.Canonical }
    requires temporary { issuer.now.prefix ≡ Prefix.Temporary }
    ensures { result ≡ (meaning profile).hash (related_input first.now canon.now.list issuer.now.list node predicate.now position) }
{
    let (letter, name, close) = position_and_predicate(predicate, position);
    match identifier(canon, issuer, node) {
        Some((prefix, place)) => {
            let mut buffer = Buffer::new();
            let number = buffer.format(place).as_bytes();
            hash_in_turn(letter, name, close, prefix, number, profile)
        }
        None => hash_in_turn(letter, name, close, first.as_bytes(), b"", profile),
    }
}
