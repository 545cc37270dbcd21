//! A dataset, by quad and by node.

ghost use Rattle.std.specs.Prelude.{◌≡◌, ◌<◌, ◌↔◌, Some, length, slice_get, All, IfOk, IsTrue, []};
ghost use Rattle.rdf_terms.specs.Lists.{In, AreDistinct, Permutes};
ghost use Rattle.rdf_terms.specs.Dataset.{IsValid};
ghost use Rattle.rdf_terms.specs.Document.{dataset, statement, statements, IsDocument, IsInRange};
ghost use Rattle.rdf_terms.specs.declared.term.Term.TheVariants.{Blank};
ghost use Rattle.dataset_index.specs.Mentions.{places_of};
ghost use Rattle.dataset_index.specs.QuadOrder.{Ascend};
ghost use Rattle.dataset_index.specs.Indexed.{with_quads};

use crate::by_subject::in_order;
use crate::mentions::all_mentions;
use crate::node_index::NodeIndex;
use crate::node_terms::node_terms;
use crate::term_nodes::TermNodes;
use rdf_terms::{Label, Lexicon, NoMemory, Parsed, Quad, TermTable};
use std::alloc::Global;
use std::marker::Model;

/// The dataset of a document (RDF 1.1 Concepts, section 4), with its quads in order and an index of
/// its nodes. Nodes are numbered from 0.
#[derive(Drop)]
pub struct Dataset {
    lexicon: Lexicon,
    quads: Vec<Quad>,
    node_terms: Vec<u32>,
    index: NodeIndex,
}

impl Model for Dataset {
    ghost use Rattle.rdf_terms.specs.Document.{Document};
    ghost use Rattle.dataset_index.specs.Indexed.{IsIndexed};

    ghost Value = { Document };

    ghost view = { λ d. record { terms = d.lexicon.terms; quads = d.quads.items; labels = d.lexicon.labels } };

    ghost invariant = { λ d. IsIndexed (record { terms = d.lexicon.terms; quads = d.quads.items; labels = d.lexicon.labels }) d.node_terms.items d.index };
}

impl Dataset {
    /// The dataset of the quads that were read, which are given up where memory is refused.
    pub fn build(alloc: Global, parsed: Parsed) -> Result<Self, NoMemory>
        ensures terms { IfOk result (λ d. d.terms ≡ parsed.terms) }
        ensures labels { IfOk result (λ d. d.labels ≡ parsed.labels) }
        ensures quads { IfOk result (λ d. Permutes parsed.quads d.quads) }
        ensures statements { IfOk result (λ d. Permutes (statements parsed) (statements d)) }
    {
        let terms = parsed.terms().len();
        let quads = in_order(alloc, parsed.quads(), terms as usize)?;
        // From here on the quads stand in memory once, in order.
        let lexicon = parsed.into_lexicon();
        if lexicon.labels().is_empty() {
            Self::without_nodes(alloc, lexicon, quads)
        } else {
            Self::with_nodes(alloc, lexicon, quads)
        }
    }

    // No term is a node, so neither the terms nor the quads are looked at.
    fn without_nodes(alloc: Global, lexicon: Lexicon, quads: Vec<Quad>) -> Result<Self, NoMemory>
        requires none { lexicon.labels ≡ [] }
        requires distinct { AreDistinct lexicon.terms }
        requires document { IsDocument (with_quads lexicon quads.items) }
        requires ascend { Ascend quads.items }
        ensures { IfOk result (λ d. d ≡ with_quads lexicon quads.items) }
    {
        let index = NodeIndex::build(alloc, 0, &[])?;
        Ok(Dataset {
            lexicon,
            quads,
            node_terms: Vec::new(alloc),
            index,
        })
    }

    fn with_nodes(alloc: Global, lexicon: Lexicon, quads: Vec<Quad>) -> Result<Self, NoMemory>
        requires distinct { AreDistinct lexicon.terms }
        requires document { IsDocument (with_quads lexicon quads.items) }
        requires ascend { Ascend quads.items }
        ensures { IfOk result (λ d. d ≡ with_quads lexicon quads.items) }
    {
        let nodes = lexicon.labels().len();
        let term_nodes = TermNodes::of(alloc, lexicon.terms())?;
        let node_terms = node_terms(alloc, &term_nodes, nodes)?;
        let mentions = all_mentions(alloc, &term_nodes, quads.as_slice())?;
        drop(term_nodes);
        let index = NodeIndex::build(alloc, nodes as u32, mentions.as_slice())?;
        Ok(Dataset {
            lexicon,
            quads,
            node_terms,
            index,
        })
    }

    /// The number of blank nodes.
    pub fn node_count(&self) -> u32
        ensures count { result ≡ length self.now.labels }
        ensures valid { IsValid (dataset self.now) }
        ensures document { IsDocument self.now }
    {
        self.lexicon.labels().len() as u32
    }

    /// All quads in ascending order, each once.
    pub fn quads(&self) -> &[Quad]
        ensures quads { result.now ≡ self.now.quads }
        ensures ascend { Ascend self.now.quads }
        ensures distinct { AreDistinct self.now.quads }
        ensures in_range { All (IsInRange self.now.terms) self.now.quads }
    {
        self.quads.as_slice()
    }

    /// The places in `quads` of those that mention the node, as subject, object or graph name,
    /// ascending and each once.
    pub fn quads_of(&self, node: u32) -> &[u32]
        requires { node < length self.now.labels }
        ensures { result.now ≡ places_of (statements self.now) node }
    {
        self.index.of(node)
    }

    /// Whether the quad is in the dataset.
    pub fn has(&self, quad: Quad) -> bool
        ensures quad { IsTrue result ↔ In quad self.now.quads }
        ensures statement { IsInRange self.now.terms quad → (IsTrue result ↔ In (statement self.now.terms quad) (statements self.now)) }
    {
        self.quads.as_slice().binary_search(&quad).is_ok()
    }

    /// What the document calls the node.
    pub fn label(&self, node: u32) -> &Label
        requires { node < length self.now.labels }
        ensures label { slice_get self.now.labels node ≡ Some result.now }
        ensures distinct { AreDistinct self.now.labels }
    {
        &self.lexicon.labels()[node as usize]
    }

    /// The number of the node's term.
    pub fn term_of(&self, node: u32) -> u32
        requires { node < length self.now.labels }
        ensures { slice_get self.now.terms result ≡ Some (Blank node) }
    {
        self.node_terms[node as usize]
    }

    /// The terms by number; each is a term of some quad.
    pub fn terms(&self) -> &TermTable
        ensures terms { result.now ≡ self.now.terms }
        ensures distinct { AreDistinct self.now.terms }
    {
        self.lexicon.terms()
    }
}
