//! What a document says so far, told leaf by leaf.
ghost use Rattle.std.specs.Prelude.{◌≡◌, ◌++◌, false, true, None, Some, IfOk, OnOk, IfSome, All, codes, string_bytes};
ghost use Rattle.std.specs.Option.{option_copied};
ghost use Rattle.rdf_terms.specs.Terms.{IsAbsoluteIri, IsValidKind, is_excluded};
ghost use Rattle.rdf_terms.specs.References.{kind_of};
ghost use Rattle.rdf_terms.specs.declared.term.LiteralKind.TheVariants.{Typed as TypedKind};
ghost use Rattle.trig_terms.specs.Leaves.{IsValidLeaf};
ghost use Rattle.trig_terms.specs.Meaning.{State, begin, xsd, tell, meet, set_prefix, meet_iri_in, end_string, meet_absolute, resolved_by, absolute, meet_iri, behind_prefix, looked_up, meet_namespace_in, meet_leaf, meet_behind, step};
ghost use Rattle.trig_terms.specs.Meaning.Said.{Iri as IriOf};
ghost use Rattle.trig_terms.specs.Meaning.Place.{AtPrefixName, AtPrefixIri, AtBaseIri};
ghost use Rattle.trig_terms.specs.Meaning.Pending.{Plain};
ghost use Rattle.trig_terms.specs.Meaning.Undefined.{NoPrefix, NoBase};
ghost use Rattle.trig_terms.specs.declared.leaf.Leaf.TheVariants.{Mark as MarkLeaf, Typed as TypedLeaf, Quoted as QuotedLeaf};
ghost use Rattle.iri_resolve.specs.Resolution.{resolved};
ghost use Rattle.trig_builder.specs.declared.place.Place.TheVariants.{AtBaseIri as BaseIriPlace};
ghost use Rattle.trig_builder.specs.Telling.{Drafts};
ghost use Rattle.trig_builder.specs.Building.{defined, if_set, IsReady, Builds, IsWhole, undefined_of};

use crate::pending::Pending;
use crate::place::Place;
use crate::prefixes::Prefixes;
use crate::telling::Telling;
use iri_resolve::{Base, has_scheme, resolve};
use rdf_terms::{Draft, LiteralKindRef, LiteralRef, NoMemory, TermRef, TermText, xsd};
use std::alloc::Global;
use std::hash::RandomState;
use std::mem;
use terminals::SpelledText;
use trig_lexer::Kind;
use trig_terms::Leaf;

/// Why a use has no definition.
#[derive(Clone, Copy, Debug, PartialEq, Eq)]
pub enum Missing {
    /// The prefix of a name was not set.
    Prefix,
    /// A reference has no scheme, and there is no base.
    Base,
}

/// How far a document has come: what it says so far, and the prefixes and the base as they stand.
#[derive(Drop)]
pub struct Builder<'a> {
    alloc: Global,
    telling: Telling,
    prefixes: Prefixes,
    base: Option<Base>,
    // The prefix that a directive sets.
    setting: Option<SpelledText<'a>>,
    pending: Option<Pending<'a>>,
    missing: Option<Missing>,
    // The IRI of the last prefixed name, so that its memory is used again.
    name: String,
}

// Writes the IRI and the local part behind it in place of what was written.
fn write_name(name: &mut String, iri: &str, local: &str) -> Result<(), NoMemory>
    ensures { OnOk result (string_bytes name.new ≡ iri.now ++ local.now) }
{
    name.clear();
    name.push_str(iri)?;
    name.push_str(local)?;
    Ok(())
}

impl<'a> Builder<'a> {
    /// A document of which no leaf has been met. The keys are those of the hashes by which terms and
    /// prefixes are found; no answer depends on them.
    pub fn new(alloc: Global, keys: RandomState, base: Option<&str>) -> Result<Self, NoMemory>
        requires { IfSome base (λ b. IsWhole b.now) }
        ensures ready { IfOk result IsReady }
        ensures builds { IfOk result (λ b. Builds b (begin (option_copied base.entry))) }
    {
        let base = match base {
            Some(text) => Some(Base::new(alloc, text)?),
            None => None,
        };
        Ok(Builder {
            alloc,
            telling: Telling::new(alloc, keys),
            prefixes: Prefixes::new(alloc, keys),
            base,
            setting: None,
            pending: None,
            missing: None,
            name: String::new(alloc),
        })
    }

    // A number or a truth value is met.
    fn meet_typed(&mut self, lexical: &str, datatype: &str) -> Result<(), NoMemory>
        requires ready { IsReady self.old }
        requires datatype { IsAbsoluteIri datatype.now }
        ensures ready { OnOk result (IsReady self.new) }
        ensures builds { OnOk result ((s : State) → Builds self.old s → Builds self.new (meet_leaf (TypedLeaf lexical.now datatype.now) s)) }
    {
        let kind = LiteralKindRef::Typed(datatype);
        self.telling
            .meet(TermRef::Literal(LiteralRef { lexical, kind }))?;
        Ok(())
    }

    // The prefix that was to be set is set to the IRI.
    fn set_prefix(&mut self, iri: &str) -> Result<(), NoMemory>
        requires ready { IsReady self.old }
        requires iri { IsWhole iri.now }
        ensures ready { OnOk result (IsReady self.new) }
        ensures builds { OnOk result ((s : State) → Builds self.old s → Builds self.new (record s { prefixes = set_prefix s.setting iri.now s.prefixes; setting = None })) }
    {
        match self.setting.take() {
            Some(prefix) => self.prefixes.set(self.alloc, prefix.as_str(), iri),
            None => Ok(()),
        }
    }

    // A directive sets a prefix.
    fn end_prefix(&mut self, iri: &str) -> Result<(), NoMemory>
        requires ready { IsReady self.old }
        requires iri { IsWhole iri.now }
        ensures ready { OnOk result (IsReady self.new) }
        ensures builds { OnOk result ((s : State) → Builds self.old s → Builds self.new (meet_iri_in AtPrefixIri iri.now s)) }
    {
        self.set_prefix(iri)?;
        self.telling.turn_to_subject();
        Ok(())
    }

    // A directive sets the base.
    fn set_base(&mut self, iri: &str) -> Result<(), NoMemory>
        requires ready { IsReady self.old }
        requires iri { IsWhole iri.now }
        ensures ready { OnOk result (IsReady self.new) }
        ensures builds { OnOk result ((s : State) → Builds self.old s → Builds self.new (meet_iri_in AtBaseIri iri.now s)) }
    {
        let base = Base::new(self.alloc, iri)?;
        self.telling.turn_to_subject();
        self.base = Some(base);
        Ok(())
    }

    // An IRI is met as a term.
    fn meet_term(&mut self, iri: &str) -> Result<(), NoMemory>
        requires ready { IsReady self.old }
        requires iri { IsWhole iri.now }
        ensures ready { OnOk result (IsReady self.new) }
        ensures builds { OnOk result ((s : State) → Builds self.old s → Builds self.new (tell (meet (IriOf iri.now)) s)) }
    {
        self.telling.meet(TermRef::Iri(iri))?;
        Ok(())
    }

    // An IRI is met, as a term or in a directive.
    fn meet_iri(&mut self, iri: &str) -> Result<(), NoMemory>
        requires ready { IsReady self.old }
        requires iri { IsWhole iri.now }
        ensures ready { OnOk result (IsReady self.new) }
        ensures builds { OnOk result ((s : State) → Builds self.old s → Builds self.new (meet_iri_in s.told.place iri.now s)) }
    {
        match self.telling.place() {
            Place::AtPrefixIri => self.end_prefix(iri),
            Place::AtBaseIri => self.set_base(iri),
            _ => self.meet_term(iri),
        }
    }

    // The string, which was taken, becomes a literal of this kind.
    fn end_string(&mut self, lexical: &str, kind: LiteralKindRef<'_>) -> Result<(), NoMemory>
        requires ready { IsReady self.old }
        requires taken { self.old.pending ≡ None }
        requires kind { IsValidKind (kind_of kind) }
        ensures ready { OnOk result (IsReady self.new) }
        ensures builds { OnOk result ((s : State) → Builds self.old (record s { pending = None }) → Builds self.new (end_string (kind_of kind.entry) lexical.now s)) }
    {
        self.telling
            .put(TermRef::Literal(LiteralRef { lexical, kind }))?;
        Ok(())
    }

    // An absolute IRI is met, as a term, as a datatype, or in a directive.
    fn meet_absolute(&mut self, iri: &str) -> Result<(), NoMemory>
        requires ready { IsReady self.old }
        requires iri { IsWhole iri.now }
        ensures ready { OnOk result (IsReady self.new) }
        ensures builds { OnOk result ((s : State) → Builds self.old s → Builds self.new (meet_absolute s.pending iri.now s)) }
    {
        match self.pending.take() {
            Some(Pending::AwaitsType(lexical)) => {
                self.end_string(lexical.as_str(), LiteralKindRef::Typed(iri))
            }
            pending => {
                self.pending = pending;
                self.meet_iri(iri)
            }
        }
    }

    // The reference, resolved against the base, where there is one.
    fn resolved(&self, reference: &str) -> Result<Option<TermText>, NoMemory>
        requires ready { IsReady self.now }
        requires reference { All (λ c. is_excluded c ≡ false) reference.now }
        ensures is { IfOk result (λ iri. iri ≡ resolved_by self.now.base reference.now) }
        ensures whole { IfOk result (λ iri. IfSome iri IsWhole) }
    {
        match &self.base {
            Some(base) => Ok(Some(resolve(self.alloc, base.as_str(), reference)?)),
            None => Ok(None),
        }
    }

    // An IRIREF without a scheme is met, resolved against the base.
    fn meet_resolved(&mut self, reference: &str) -> Result<(), NoMemory>
        requires ready { IsReady self.old }
        requires reference { All (λ c. is_excluded c ≡ false) reference.now }
        ensures ready { OnOk result (IsReady self.new) }
        ensures builds { OnOk result ((s : State) → Builds self.old s → Builds self.new (meet_iri (resolved_by s.base reference.now) NoBase s)) }
    {
        match self.resolved(reference)? {
            Some(iri) => self.meet_absolute(iri.as_str()),
            None => {
                self.missing = Some(Missing::Base);
                Ok(())
            }
        }
    }

    // A directive sets the base to the reference, resolved against this one, which was taken.
    fn set_base_below(&mut self, before: Base, reference: &str) -> Result<(), NoMemory>
        requires ready { IsReady self.old }
        requires before { IsWhole before }
        requires reference { All (λ c. is_excluded c ≡ false) reference.now }
        ensures ready { OnOk result (IsReady self.new) }
        ensures builds { OnOk result ((s : State) → Builds self.old (record s { base = None }) → Builds self.new (meet_iri_in AtBaseIri (resolved before reference.now) s)) }
    {
        let mut base = before;
        base.turn_to(self.alloc, reference)?;
        self.telling.turn_to_subject();
        self.base = Some(base);
        Ok(())
    }

    // An IRIREF without a scheme is met in a directive that sets the base.
    fn move_base(&mut self, reference: &str) -> Result<(), NoMemory>
        requires ready { IsReady self.old }
        requires reference { All (λ c. is_excluded c ≡ false) reference.now }
        requires here { self.old.telling.place ≡ BaseIriPlace }
        requires taken { self.old.pending ≡ None }
        ensures ready { OnOk result (IsReady self.new) }
        ensures builds { OnOk result ((s : State) → Builds self.old s → Builds self.new (meet_iri (resolved_by s.base reference.now) NoBase s)) }
    {
        match self.base.take() {
            Some(base) => self.set_base_below(base, reference),
            None => {
                self.missing = Some(Missing::Base);
                Ok(())
            }
        }
    }

    // An IRIREF without a scheme is met.
    fn meet_relative(&mut self, reference: &str) -> Result<(), NoMemory>
        requires ready { IsReady self.old }
        requires reference { All (λ c. is_excluded c ≡ false) reference.now }
        ensures ready { OnOk result (IsReady self.new) }
        ensures builds { OnOk result ((s : State) → Builds self.old s → Builds self.new (meet_iri (resolved_by s.base reference.now) NoBase s)) }
    {
        match (self.telling.place(), &self.pending) {
            (Place::AtBaseIri, None) => self.move_base(reference),
            _ => self.meet_resolved(reference),
        }
    }

    // An IRIREF is met.
    fn meet_reference(&mut self, reference: &str) -> Result<(), NoMemory>
        requires ready { IsReady self.old }
        requires reference { All (λ c. is_excluded c ≡ false) reference.now }
        ensures ready { OnOk result (IsReady self.new) }
        ensures builds { OnOk result ((s : State) → Builds self.old s → Builds self.new (meet_iri (absolute s.base reference.now) NoBase s)) }
    {
        if has_scheme(reference) {
            self.meet_absolute(reference)
        } else {
            self.meet_relative(reference)
        }
    }

    // Writes the prefix's IRI and the local part behind it, where the prefix is set.
    fn spell_name(&self, name: &mut String, prefix: &str, local: &str) -> Result<bool, NoMemory>
        requires ready { IsReady self.now }
        requires local { All (λ c. is_excluded c ≡ false) local.now }
        ensures spelled { IfOk result (λ is_set. if_set is_set (string_bytes name.new) ≡ behind_prefix (defined self.now.prefixes prefix.now) local.now) }
        ensures whole { IfOk result (λ is_set. is_set ≡ true → IsWhole (string_bytes name.new)) }
    {
        let Some(iri) = self.prefixes.get(prefix) else {
            return Ok(false);
        };
        write_name(name, iri, local)?;
        Ok(true)
    }

    // A prefixed name is met that stands for this IRI, if its prefix is set.
    fn meet_spelled(&mut self, is_set: bool, iri: &str) -> Result<(), NoMemory>
        requires ready { IsReady self.old }
        requires iri { is_set ≡ true → IsWhole iri.now }
        ensures ready { OnOk result (IsReady self.new) }
        ensures builds { OnOk result ((s : State) → Builds self.old s → Builds self.new (meet_iri (if_set is_set iri.now) NoPrefix s)) }
    {
        if is_set {
            self.meet_absolute(iri)
        } else {
            self.missing = Some(Missing::Prefix);
            Ok(())
        }
    }

    // A prefixed name is met.
    fn meet_name(&mut self, prefix: &str, local: &str) -> Result<(), NoMemory>
        requires ready { IsReady self.old }
        requires local { All (λ c. is_excluded c ≡ false) local.now }
        ensures ready { OnOk result (IsReady self.new) }
        ensures builds { OnOk result ((s : State) → Builds self.old s → Builds self.new (meet_iri (behind_prefix (looked_up s.prefixes prefix.now) local.now) NoPrefix s)) }
    {
        let mut name = mem::replace(&mut self.name, String::new(self.alloc));
        let is_set = self.spell_name(&mut name, prefix, local)?;
        self.meet_spelled(is_set, name.as_str())?;
        self.name = name;
        Ok(())
    }

    // The prefix that a directive sets is met.
    fn begin_prefix(&mut self, prefix: SpelledText<'a>)
        requires { IsReady self.old }
        ensures ready { IsReady self.new }
        ensures builds { (s : State) → Builds self.old s → Builds self.new (meet_namespace_in AtPrefixName prefix.entry s) }
    {
        self.setting = Some(prefix);
        self.telling.turn_to_prefix_iri();
    }

    // PNAME_NS is met, as a name or as what a directive sets.
    fn meet_namespace(&mut self, prefix: SpelledText<'a>) -> Result<(), NoMemory>
        requires { IsReady self.old }
        ensures ready { OnOk result (IsReady self.new) }
        ensures builds { OnOk result ((s : State) → Builds self.old s → Builds self.new (meet_namespace_in s.told.place prefix.entry s)) }
    {
        match self.telling.place() {
            Place::AtPrefixName => {
                self.begin_prefix(prefix);
                Ok(())
            }
            _ => self.meet_name(prefix.as_str(), ""),
        }
    }

    // A string is met, whose suffix may follow.
    fn begin_string(&mut self, lexical: SpelledText<'a>) -> Result<(), NoMemory>
        requires { IsReady self.old }
        ensures ready { OnOk result (IsReady self.new) }
        ensures builds { OnOk result ((s : State) → Builds self.old s → Builds self.new (meet_leaf (QuotedLeaf lexical.entry) s)) }
    {
        self.telling.begin_item()?;
        self.pending = Some(Pending::Plain(lexical));
        Ok(())
    }

    // A leaf that is no suffix of the string before it.
    fn meet_leaf(&mut self, leaf: Leaf<'a>) -> Result<(), NoMemory>
        requires ready { IsReady self.old }
        requires valid { IsValidLeaf leaf }
        ensures ready { OnOk result (IsReady self.new) }
        ensures builds { OnOk result ((s : State) → Builds self.old s → Builds self.new (meet_leaf leaf.entry s)) }
    {
        match leaf {
            Leaf::Mark(kind) => self.telling.tell_mark(kind),
            Leaf::Iri(text) => self.meet_reference(text.as_str()),
            Leaf::Namespace(prefix) => self.meet_namespace(prefix),
            Leaf::Name(prefix, local) => self.meet_name(prefix.as_str(), local.as_str()),
            Leaf::Label(name) => self.telling.meet_label(name.as_str()),
            Leaf::Anonymous => self.telling.meet_anonymous(),
            Leaf::Typed(lexical, datatype) => self.meet_typed(lexical.as_str(), datatype.as_str()),
            Leaf::Quoted(lexical) => self.begin_string(lexical),
            Leaf::Tag(_) => Ok(()),
        }
    }

    // The string, which was taken, has no suffix, and the leaf behind it is met.
    fn end_plain(&mut self, lexical: &str, leaf: Leaf<'a>) -> Result<(), NoMemory>
        requires ready { IsReady self.old }
        requires taken { self.old.pending ≡ None }
        requires valid { IsValidLeaf leaf }
        ensures ready { OnOk result (IsReady self.new) }
        ensures builds { OnOk result ((s : State) → Builds self.old (record s { pending = None }) → Builds self.new (meet_leaf leaf.entry (end_string (TypedKind (xsd (codes "string"))) lexical.now s))) }
    {
        self.end_string(lexical, LiteralKindRef::Typed(xsd::STRING))?;
        self.meet_leaf(leaf)
    }

    // Behind the string, which was taken, a word or a mark is met.
    fn meet_mark_behind(&mut self, lexical: SpelledText<'a>, kind: Kind) -> Result<(), NoMemory>
        requires ready { IsReady self.old }
        requires taken { self.old.pending ≡ None }
        ensures ready { OnOk result (IsReady self.new) }
        ensures builds { OnOk result ((s : State) → Builds self.old (record s { pending = None }) → Builds self.new (meet_behind (Some (Plain lexical.entry)) (MarkLeaf kind) s)) }
    {
        if kind == Kind::Carets {
            self.pending = Some(Pending::AwaitsType(lexical));
            return Ok(());
        }
        self.end_plain(lexical.as_str(), Leaf::Mark(kind))
    }

    // Behind the string, which was taken, its suffix is met, or it has none.
    fn meet_behind(&mut self, lexical: SpelledText<'a>, leaf: Leaf<'a>) -> Result<(), NoMemory>
        requires ready { IsReady self.old }
        requires taken { self.old.pending ≡ None }
        requires valid { IsValidLeaf leaf }
        ensures ready { OnOk result (IsReady self.new) }
        ensures builds { OnOk result ((s : State) → Builds self.old (record s { pending = None }) → Builds self.new (meet_behind (Some (Plain lexical.entry)) leaf.entry s)) }
    {
        match leaf {
            Leaf::Tag(tag) => {
                self.end_string(lexical.as_str(), LiteralKindRef::Tagged(tag.as_str()))
            }
            Leaf::Mark(kind) => self.meet_mark_behind(lexical, kind),
            leaf => self.end_plain(lexical.as_str(), leaf),
        }
    }

    // The next leaf is met, where each use so far had its definition.
    fn meet_defined(&mut self, leaf: Leaf<'a>) -> Result<(), NoMemory>
        requires ready { IsReady self.old }
        requires valid { IsValidLeaf leaf }
        ensures ready { OnOk result (IsReady self.new) }
        ensures builds { OnOk result ((s : State) → Builds self.old s → Builds self.new (meet_behind s.pending leaf.entry s)) }
    {
        match self.pending.take() {
            Some(Pending::Plain(lexical)) => self.meet_behind(lexical, leaf),
            pending => {
                self.pending = pending;
                self.meet_leaf(leaf)
            }
        }
    }

    /// The next leaf is met. Behind the first use without a definition nothing more is said. After
    /// a refusal the builder stands for nothing.
    pub fn step(&mut self, leaf: Leaf<'a>) -> Result<(), NoMemory>
        requires ready { IsReady self.old }
        requires valid { IsValidLeaf leaf }
        ensures ready { OnOk result (IsReady self.new) }
        ensures builds { OnOk result ((s : State) → Builds self.old s → Builds self.new (step s leaf.entry)) }
    {
        if self.missing.is_some() {
            return Ok(());
        }
        self.meet_defined(leaf)
    }

    /// Why the first use without a definition has none, where there is such a use.
    pub fn missing(&self) -> Option<Missing>
        ensures { (s : State) → Builds self.now s → undefined_of result ≡ s.undefined }
    {
        self.missing
    }

    /// The blank nodes that were mentioned, and the quads that were said: all of them, or more
    /// than `MAX_QUADS`.
    pub fn into_draft(self) -> Draft
        ensures { (s : State) → Builds self.entry s → Drafts result s.told }
    {
        let Builder { telling, .. } = self;
        telling.into_draft()
    }
}
