//! Whether two graphs are equivalent.
ghost use Rattle.std.specs.Prelude.{◌≡◌, IfOk, IfErr};
ghost use Rattle.rdf_terms.specs.Document.{statements};
ghost use Rattle.component_walk.specs.Image.{IsOneGraph};
ghost use Rattle.lean_search.specs.Lean.{IsLeanForm, triples_of};
ghost use Rattle.entail.specs.Answers.{IsEntailAnswer, IsMapFound};
ghost use Rattle.entail.specs.Entailment.{Entails};
ghost use Rattle.equivalence.specs.Answers.{IsEntailCause, IsEquivAnswer, IsEquivStop, IsIsomorphism, IsLeanCause};

use crate::form::EquivStop;
use crate::pairing::pairs_of;
use crate::used::nodes_of;
use component_walk::named_quad;
use dataset_index::Dataset;
use entail::{EntailStop, InstanceMap, entails};
use lean_search::{LeanForm, LeanStop, lean};
use rdf_terms::{Bijection, NoMemory, PairList};
use std::alloc::Global;

// The lean form of the graph of this file.
fn lean_form(alloc: Global, graph: &Dataset, file: u8, limit: u64) -> Result<LeanForm, EquivStop>
    requires { IsOneGraph graph.now }
    ensures form { IfOk result (IsLeanForm graph.now limit) }
    ensures stop { IfErr result (IsLeanCause graph.now limit file) }
{
    match lean(alloc, graph, limit) {
        Ok(form) => Ok(form),
        Err(LeanStop::NotOneGraph { .. }) => unreachable!(),
        Err(LeanStop::SearchLimit { image }) => Err(EquivStop::SearchLimit { file, image }),
        Err(LeanStop::NoMemory) => Err(EquivStop::NoMemory),
    }
}

// A map of the graph `e` of this file into `g`, if there is one.
fn instance_map(
    alloc: Global,
    g: &Dataset,
    e: &Dataset,
    file: u8,
    limit: u64,
) -> Result<Option<InstanceMap>, EquivStop>
    requires graph { IsOneGraph g.now }
    requires entailed { IsOneGraph e.now }
    ensures answer { IfOk result (IsEntailAnswer g.now e.now) }
    ensures stop { IfErr result (IsEntailCause g.now e.now limit file) }
{
    match entails(alloc, g, e, limit) {
        Ok(answer) => Ok(answer),
        Err(EntailStop::NotOneGraph { .. }) => unreachable!(),
        Err(EntailStop::EntailLimit { node }) => Err(EquivStop::EntailLimit { file, node }),
        Err(EntailStop::NoMemory) => Err(EquivStop::NoMemory),
    }
}

// Each node of the lean form of `g` with the node that the map into `h` and then the lean map of `h` take
// it to.
fn isomorphism(
    alloc: Global,
    g: &Dataset,
    h: &Dataset,
    form: &LeanForm,
    other: &LeanForm,
    images: &InstanceMap,
) -> Result<Bijection, NoMemory>
    requires graph { IsOneGraph g.now }
    requires other_graph { IsOneGraph h.now }
    requires form { (limit : _) × IsLeanForm g.now limit form.now }
    requires other { (limit : _) × IsLeanForm h.now limit other.now }
    requires images { IsMapFound h.now g.now images.now }
    requires back { Entails (statements g.now) (statements h.now) }
    ensures { IfOk result (λ b. IsIsomorphism (triples_of g.now form.now.quads) (triples_of h.now other.now.quads) b.pairs) }
{
    let marks = nodes_of(alloc, g, form.quads.as_slice())?;
    let pairs = pairs_of(
        alloc,
        h,
        images.terms.as_slice(),
        other.map.as_slice(),
        marks.as_slice(),
    )?;
    Ok(Bijection {
        pairs: PairList::new(pairs),
    })
}

fn equivalent_graphs(
    alloc: Global,
    g: &Dataset,
    h: &Dataset,
    limit: u64,
) -> Result<Option<Bijection>, EquivStop>
    requires graph { IsOneGraph g.now }
    requires other_graph { IsOneGraph h.now }
    ensures answer { IfOk result (IsEquivAnswer g.now h.now limit) }
    ensures stop { IfErr result (IsEquivStop g.now h.now limit) }
{
    let form = lean_form(alloc, g, 0, limit)?;
    let other = lean_form(alloc, h, 1, limit)?;
    let Some(images) = instance_map(alloc, h, g, 0, limit)? else {
        return Ok(None);
    };
    let Some(_) = instance_map(alloc, g, h, 1, limit)? else {
        return Ok(None);
    };
    let pairs = isomorphism(alloc, g, h, &form, &other, &images)?;
    Ok(Some(pairs))
}

/// Whether two graphs entail each other (RDF 1.1 Semantics, section 5.2): the nodes of the lean form of `g`,
/// ascending, each with the node of the lean form of `h` that it is taken to, or nothing where one of the
/// graphs does not entail the other. Each search of a component tries at most `limit` maps of its first
/// nodes, the empty one among them.
pub fn equivalent(
    alloc: Global,
    g: &Dataset,
    h: &Dataset,
    limit: u64,
) -> Result<Option<Bijection>, EquivStop>
    ensures answer { IfOk result (IsEquivAnswer g.now h.now limit) }
    ensures stop { IfErr result (IsEquivStop g.now h.now limit) }
{
    if let Some(quad) = named_quad(g) {
        return Err(EquivStop::NotOneGraph { file: 0, quad });
    }
    if let Some(quad) = named_quad(h) {
        return Err(EquivStop::NotOneGraph { file: 1, quad });
    }
    equivalent_graphs(alloc, g, h, limit)
}
