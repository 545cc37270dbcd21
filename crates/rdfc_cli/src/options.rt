//! The options of a command: how they are spelled, and what they set.
ghost use Rattle.std.specs.Prelude.{◌≡◌, ◌↔◌, ℕ, ◌^◌, ◌<◌, ◌≤◌, List, [], ◌∷◌, false, length, map, string_bytes, IsTrue, IfSome, IfNone, None};
ghost use Rattle.std.specs.Option.{option_copied};
ghost use Rattle.rdf_terms.specs.Lists.{Text};
ghost use Rattle.rdf_terms.specs.Numeral.{numeral};
ghost use Rattle.canon_model.specs.declared.profile.HashKind.{HashKind};
ghost use Rattle.canon_model.specs.declared.profile.Related.{Related};
ghost use Rattle.trig_builder.specs.Building.{IsWhole as IsBase};
ghost use Rattle.rdfc_cli.specs.Words.{Given, name_word, hash_word, related_word};
ghost use Rattle.rdfc_cli.specs.Words.Given.{limit as limit_given, hash as hash_given, related as related_given, as_map as map_given, as_trig as trig_given, base as base_given};
ghost use Rattle.rdfc_cli.specs.Options.{chosen, chosen_by, chosen_syntax, settings_in, MayFollow, MayRead, Adds, Reads, AreOptions, AreNoOptions, BeginsNoOption, BeginsWithName, LeavesProfile, LeavesSyntax, HasFittingBase};
ghost use Rattle.rdfc_cli.specs.Requests.{syntax_of};
ghost use Rattle.rdfc_cli.specs.declared.options.OptionName.{OptionName};

use crate::decimal::Decimal;
use canon_model::{HashKind, Profile, Related};
use char_tables::iri_len;
use iri_resolve::has_scheme;

/// The least limit that an option sets.
pub const LEAST_LIMIT: u64 = 1;

/// The greatest limit that an option sets.
pub const GREATEST_LIMIT: u64 = 100_000_000;

/// The limit where no option sets one.
pub const DEFAULT_LIMIT: u64 = 200_000;

/// What the options of a command set.
#[derive(Clone, Copy, Debug, PartialEq, Eq)]
pub struct Settings {
    /// The most units that the canonicalization of one dataset may take; of `lean`, the most partial maps that are tried
    /// for a component.
    pub limit: u64,
    pub profile: Profile,
    /// Whether `lean` writes the map onto the lean graph in place of the graph.
    pub map: bool,
}

/// How the files of a command are written.
#[derive(Clone, Copy, Debug, PartialEq, Eq)]
pub enum Syntax<'a> {
    /// RDF 1.1 N-Quads.
    NQuads,
    /// RDF 1.1 TriG. The base, where there is one, is that of the first reference without a scheme.
    TriG { base: Option<&'a str> },
}

#[derive(Clone, Copy)]
enum OptionName {
    Limit,
    Hash,
    Related,
    Map,
    TriG,
    Base,
}

// The options that were read so far, each at most once.
#[derive(Clone, Copy)]
pub(crate) struct Options<'a> {
    limit: Option<u64>,
    hash: Option<HashKind>,
    related: Option<Related>,
    map: bool,
    trig: bool,
    base: Option<&'a str>,
}

// The options that were read so far, and the words that are left.
#[derive(Clone, Copy)]
pub(crate) struct Reading<'a> {
    pub(crate) options: Options<'a>,
    pub(crate) rest: &'a [String],
}

fn name_of(word: &str) -> Option<OptionName>
    ensures some { IfSome result (λ name. word.now ≡ name_word name) }
    ensures none { IfNone result ((name : OptionName) → ¬ (word.now ≡ name_word name)) }
{
    match word {
        "--limit" => Some(OptionName::Limit),
        "--hash" => Some(OptionName::Hash),
        "--related" => Some(OptionName::Related),
        "--map" => Some(OptionName::Map),
        "--trig" => Some(OptionName::TriG),
        "--base" => Some(OptionName::Base),
        _ => None,
    }
}

// The number that the word is the decimal numeral of, without sign or leading zero.
fn number_of(word: &str) -> Option<u64>
    ensures some { IfSome result (λ n. word.now ≡ numeral n) }
    ensures none { IfNone result ((n : ℕ) → n < 2 ^ 64 → ¬ (word.now ≡ numeral n)) }
{
    let Ok(number) = word.parse::<u64>() else {
        return None;
    };
    if Decimal::of(number).as_bytes() == word.as_bytes() {
        Some(number)
    } else {
        None
    }
}

// The number that the word is the decimal numeral of, without sign or leading zero, where it is within the bounds.
pub(crate) fn number_within(word: &str, least: u64, greatest: u64) -> Option<u64>
    ensures some { IfSome result (λ n. word.now ≡ numeral n) }
    ensures least { IfSome result (λ n. least ≤ n) }
    ensures greatest { IfSome result (λ n. n ≤ greatest) }
    ensures none { IfNone result ((n : ℕ) → least ≤ n → n ≤ greatest → ¬ (word.now ≡ numeral n)) }
{
    let number = number_of(word)?;
    if least <= number && number <= greatest {
        Some(number)
    } else {
        None
    }
}

fn hash_of(word: &str) -> Option<HashKind>
    ensures some { IfSome result (λ kind. word.now ≡ hash_word kind) }
    ensures none { IfNone result ((kind : HashKind) → ¬ (word.now ≡ hash_word kind)) }
{
    match word {
        "sha256" => Some(HashKind::Sha256),
        "sha384" => Some(HashKind::Sha384),
        _ => None,
    }
}

fn related_of(word: &str) -> Option<Related>
    ensures some { IfSome result (λ reading. word.now ≡ related_word reading) }
    ensures none { IfNone result ((reading : Related) → ¬ (word.now ≡ related_word reading)) }
{
    match word {
        "each" => Some(Related::Each),
        "once" => Some(Related::Once),
        _ => None,
    }
}

// The base that the word is: an IRI with a scheme, without characters that an IRI excludes.
fn base_of(word: &str) -> Option<&str>
    ensures some { IfSome result (λ base. base.now ≡ word.now) }
    ensures good { IfSome result (λ base. IsBase base.now) }
    ensures none { IfNone result (¬ (IsBase word.now)) }
{
    if has_scheme(word) && iri_len(word.as_bytes()) == word.len() {
        Some(word)
    } else {
        None
    }
}

impl<'a> Options<'a> {
    fn none() -> Self
        ensures { chosen result ≡ chosen_by [] }
    {
        Options {
            limit: None,
            hash: None,
            related: None,
            map: false,
            trig: false,
            base: None,
        }
    }

    fn with_limit(self, value: &str) -> Option<Self>
        ensures some { IfSome result (λ new. Adds (chosen self.entry) (chosen new) (name_word OptionName.Limit ∷ value.now ∷ [])) }
        ensures none { IfNone result ((n : ℕ) → ¬ (MayFollow (chosen self.entry) (limit_given n) (name_word OptionName.Limit ∷ value.now ∷ []))) }
    {
        match self.limit {
            None => Some(Options {
                limit: Some(number_within(value, LEAST_LIMIT, GREATEST_LIMIT)?),
                ..self
            }),
            Some(_) => None,
        }
    }

    fn with_hash(self, value: &str) -> Option<Self>
        ensures some { IfSome result (λ new. Adds (chosen self.entry) (chosen new) (name_word OptionName.Hash ∷ value.now ∷ [])) }
        ensures none { IfNone result ((kind : HashKind) → ¬ (MayFollow (chosen self.entry) (hash_given kind) (name_word OptionName.Hash ∷ value.now ∷ []))) }
    {
        match self.hash {
            None => Some(Options {
                hash: Some(hash_of(value)?),
                ..self
            }),
            Some(_) => None,
        }
    }

    fn with_related(self, value: &str) -> Option<Self>
        ensures some { IfSome result (λ new. Adds (chosen self.entry) (chosen new) (name_word OptionName.Related ∷ value.now ∷ [])) }
        ensures none { IfNone result ((reading : Related) → ¬ (MayFollow (chosen self.entry) (related_given reading) (name_word OptionName.Related ∷ value.now ∷ []))) }
    {
        match self.related {
            None => Some(Options {
                related: Some(related_of(value)?),
                ..self
            }),
            Some(_) => None,
        }
    }

    fn with_map(self) -> Option<Self>
        ensures some { IfSome result (λ new. Adds (chosen self.entry) (chosen new) (name_word OptionName.Map ∷ [])) }
        ensures none { IfNone result (¬ (MayFollow (chosen self.entry) map_given (name_word OptionName.Map ∷ []))) }
    {
        if self.map {
            None
        } else {
            Some(Options { map: true, ..self })
        }
    }

    fn with_trig(self) -> Option<Self>
        ensures some { IfSome result (λ new. Adds (chosen self.entry) (chosen new) (name_word OptionName.TriG ∷ [])) }
        ensures none { IfNone result (¬ (MayFollow (chosen self.entry) trig_given (name_word OptionName.TriG ∷ []))) }
    {
        if self.trig {
            None
        } else {
            Some(Options { trig: true, ..self })
        }
    }

    fn with_base(self, value: &'a str) -> Option<Self>
        ensures some { IfSome result (λ new. Adds (chosen self.entry) (chosen new) (name_word OptionName.Base ∷ value.now ∷ [])) }
        ensures none { IfNone result ((iri : Text) → ¬ (MayFollow (chosen self.entry) (base_given iri) (name_word OptionName.Base ∷ value.now ∷ []))) }
    {
        match self.base {
            None => Some(Options {
                base: Some(base_of(value)?),
                ..self
            }),
            Some(_) => None,
        }
    }

    // These and the option of this name with this value. `None` where it was read before, or can't have the value.
    fn with(self, name: OptionName, value: &'a str) -> Option<Self>
        ensures some { IfSome result (λ new. Adds (chosen self.entry) (chosen new) (name_word name ∷ value.now ∷ [])) }
        ensures none { IfNone result ((given : Given) → ¬ (MayFollow (chosen self.entry) given (name_word name ∷ value.now ∷ []))) }
    {
        match name {
            OptionName::Limit => self.with_limit(value),
            OptionName::Hash => self.with_hash(value),
            OptionName::Related => self.with_related(value),
            OptionName::Base => self.with_base(value),
            OptionName::Map | OptionName::TriG => None,
        }
    }

    // Whether none of them was read that sets the profile.
    pub(crate) fn leave_the_profile(&self) -> bool
        ensures { IsTrue result ↔ LeavesProfile (chosen self.now) }
    {
        match (self.hash, self.related) {
            (None, None) => true,
            _ => false,
        }
    }

    // Whether none of them was read that says how files are written.
    pub(crate) fn leave_the_syntax(&self) -> bool
        ensures { IsTrue result ↔ LeavesSyntax (chosen self.now) }
    {
        match (self.trig, self.base) {
            (false, None) => true,
            _ => false,
        }
    }

    // Whether the graph is shown, and not the map.
    pub(crate) fn leave_the_map(&self) -> bool
        ensures { IsTrue result ↔ (self.now.map ≡ false) }
    {
        !self.map
    }

    // What they set, with the default for each that was not read.
    pub(crate) fn settings(&self) -> Settings
        ensures { (given : List Given) → chosen self.now ≡ chosen_by given → result ≡ settings_in given }
    {
        Settings {
            limit: self.limit.unwrap_or(DEFAULT_LIMIT),
            profile: Profile {
                hash: self.hash.unwrap_or(HashKind::Sha256),
                related: self.related.unwrap_or(Related::Each),
            },
            map: self.map,
        }
    }

    // How they say that files are written. `None` where a base was read and TriG was not.
    pub(crate) fn syntax(&self) -> Option<Syntax<'a>>
        ensures some { IfSome result (λ s. syntax_of s ≡ chosen_syntax (chosen self.now)) }
        ensures fits { IfSome result (λ _. HasFittingBase (chosen self.now)) }
        ensures none { IfNone result (¬ (HasFittingBase (chosen self.now))) }
    {
        match (self.trig, self.base) {
            (true, base) => Some(Syntax::TriG { base }),
            (false, None) => Some(Syntax::NQuads),
            (false, Some(_)) => None,
        }
    }
}

fn first_name(words: &[String]) -> Option<OptionName>
    ensures some { IfSome result (λ name. BeginsWithName (map string_bytes words.now) name) }
    ensures none { IfNone result (BeginsNoOption (map string_bytes words.now)) }
{
    name_of(words.first()?.as_str())
}

impl<'a> Reading<'a> {
    // With the option of this name that the words begin with. `None` where it was read before, or is spelled wrong.
    fn read_option(self, name: OptionName) -> Option<Self>
        requires { BeginsWithName (map string_bytes self.rest.now) name }
        ensures some { IfSome result (λ r. Reads (chosen self.entry.options) (map string_bytes self.entry.rest.now) (chosen r.options) (map string_bytes r.rest.now)) }
        ensures none { IfNone result ((given : Given) (rest : List Text) → ¬ (MayRead (chosen self.entry.options) given (map string_bytes self.entry.rest.now) rest)) }
        ensures fewer { IfSome result (λ r. length r.rest.now < length self.entry.rest.now) }
    {
        let (_, behind) = self.rest.split_first()?;
        let (options, rest) = match name {
            OptionName::Map => (self.options.with_map()?, behind),
            OptionName::TriG => (self.options.with_trig()?, behind),
            _ => {
                let (value, rest) = behind.split_first()?;
                (self.options.with(name, value.as_str())?, rest)
            }
        };
        Some(Reading { options, rest })
    }
}

// The options that the words begin with, and the words behind them. `None` where an option is spelled wrong, or is
// there twice.
pub(crate) fn read_options(words: &[String]) -> Option<Reading<'_>>
    ensures some { IfSome result (λ r. AreOptions (map string_bytes words.now) (chosen r.options) (map string_bytes r.rest.now)) }
    ensures none { IfNone result (AreNoOptions (map string_bytes words.now)) }
{
    let mut reading = Reading {
        options: Options::none(),
        rest: words,
    };
    while let Some(name) = first_name(reading.rest) {
        reading = reading.read_option(name)?;
    }
    Some(reading)
}
