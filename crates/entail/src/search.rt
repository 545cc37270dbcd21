//! Whether a graph entails another.
ghost use Rattle.std.specs.Prelude.{◌≡◌, ◌<◌, ◌+◌, IfOk, IfErr, OnOk, length};
ghost use Rattle.rdf_terms.specs.Document.{statements};
ghost use Rattle.component_walk.specs.Image.{IsOneGraph};
ghost use Rattle.entail.specs.Answers.{IsEntailAnswer, IsEntailStop};
ghost use Rattle.entail.specs.Crossed.{AreCrossed};
ghost use Rattle.entail.specs.Searched.{AreMapped, IsGroundKept, IsImaged, IsPassed};
ghost use Rattle.entail.specs.Workspace.{IsWorkspace};

use crate::component::{Searched, search_component};
use crate::crossing::{Crossing, cross};
use crate::form::{EntailStop, InstanceMap};
use crate::ground::is_ground_kept;
use crate::workspace::{Workspace, new_workspace};
use component_walk::named_quad;
use dataset_index::Dataset;
use rdf_terms::NodeList;
use std::alloc::Global;

// Maps the component of the node, which has no image. False where there is no map.
fn map_component(
    alloc: Global,
    crossing: &Crossing<'_>,
    workspace: &mut Workspace,
    start: u32,
    limit: u64,
) -> Result<bool, EntailStop>
    requires crossed { AreCrossed crossing.now }
    requires workspace { IsWorkspace crossing.now.entailed.now workspace.old }
    requires within { start < length crossing.now.entailed.now.labels }
    requires mapped { AreMapped (statements crossing.now.entailed.now) (statements crossing.now.graph.now) crossing.now.graph.now.terms workspace.old.images.items start }
    requires unmapped { ¬ (IsImaged crossing.now.graph.now.terms workspace.old.images.items start) }
    ensures workspace { OnOk result (IsWorkspace crossing.now.entailed.now workspace.new) }
    ensures passed { IfOk result (IsPassed (statements crossing.now.entailed.now) (statements crossing.now.graph.now) crossing.now.graph.now.terms workspace.new.images.items (start + 1)) }
    ensures stop { IfErr result (IsEntailStop crossing.now.graph.now crossing.now.entailed.now limit) }
{
    let searched = search_component(alloc, crossing, workspace, start, limit)?;
    match searched {
        Searched::Mapped => Ok(true),
        Searched::Unmapped => Ok(false),
        Searched::PastLimit => Err(EntailStop::EntailLimit { node: start }),
    }
}

// Maps the node and its component, if it has no image.
fn pass(
    alloc: Global,
    crossing: &Crossing<'_>,
    workspace: &mut Workspace,
    start: u32,
    limit: u64,
) -> Result<bool, EntailStop>
    requires crossed { AreCrossed crossing.now }
    requires workspace { IsWorkspace crossing.now.entailed.now workspace.old }
    requires within { start < length crossing.now.entailed.now.labels }
    requires mapped { AreMapped (statements crossing.now.entailed.now) (statements crossing.now.graph.now) crossing.now.graph.now.terms workspace.old.images.items start }
    ensures workspace { OnOk result (IsWorkspace crossing.now.entailed.now workspace.new) }
    ensures passed { IfOk result (IsPassed (statements crossing.now.entailed.now) (statements crossing.now.graph.now) crossing.now.graph.now.terms workspace.new.images.items (start + 1)) }
    ensures stop { IfErr result (IsEntailStop crossing.now.graph.now crossing.now.entailed.now limit) }
{
    if workspace.images[start as usize] < crossing.graph.terms().len() {
        Ok(true)
    } else {
        map_component(alloc, crossing, workspace, start, limit)
    }
}

// Maps component after component. A node that has no image when it comes is the least of its component,
// since all nodes before it have one.
fn search(
    alloc: Global,
    crossing: &Crossing<'_>,
    workspace: &mut Workspace,
    limit: u64,
) -> Result<bool, EntailStop>
    requires crossed { AreCrossed crossing.now }
    requires workspace { IsWorkspace crossing.now.entailed.now workspace.old }
    requires mapped { AreMapped (statements crossing.now.entailed.now) (statements crossing.now.graph.now) crossing.now.graph.now.terms workspace.old.images.items 0 }
    ensures workspace { OnOk result (IsWorkspace crossing.now.entailed.now workspace.new) }
    ensures passed { IfOk result (IsPassed (statements crossing.now.entailed.now) (statements crossing.now.graph.now) crossing.now.graph.now.terms workspace.new.images.items (length crossing.now.entailed.now.labels)) }
    ensures stop { IfErr result (IsEntailStop crossing.now.graph.now crossing.now.entailed.now limit) }
{
    for start in 0..crossing.entailed.node_count() {
        let is_mapped = pass(alloc, crossing, workspace, start, limit)?;
        if !is_mapped {
            return Ok(false);
        }
    }
    Ok(true)
}

// The images of all nodes, if each component has a map.
fn map_nodes(
    alloc: Global,
    crossing: &Crossing<'_>,
    limit: u64,
) -> Result<Option<InstanceMap>, EntailStop>
    requires crossed { AreCrossed crossing.now }
    requires ground { IsGroundKept (statements crossing.now.entailed.now) (statements crossing.now.graph.now) }
    ensures answer { IfOk result (IsEntailAnswer crossing.now.graph.now crossing.now.entailed.now) }
    ensures stop { IfErr result (IsEntailStop crossing.now.graph.now crossing.now.entailed.now limit) }
{
    let none = crossing.graph.terms().len();
    let mut workspace = new_workspace(alloc, crossing.entailed, none)?;
    let is_mapped = search(alloc, crossing, &mut workspace, limit)?;
    if is_mapped {
        Ok(Some(InstanceMap {
            terms: NodeList::new(workspace.images),
        }))
    } else {
        Ok(None)
    }
}

fn entails_graph(
    alloc: Global,
    g: &Dataset,
    e: &Dataset,
    limit: u64,
) -> Result<Option<InstanceMap>, EntailStop>
    requires graph { IsOneGraph g.now }
    requires entailed { IsOneGraph e.now }
    ensures answer { IfOk result (IsEntailAnswer g.now e.now) }
    ensures stop { IfErr result (IsEntailStop g.now e.now limit) }
{
    let crossing = cross(alloc, g, e)?;
    if is_ground_kept(&crossing) {
        map_nodes(alloc, &crossing, limit)
    } else {
        Ok(None)
    }
}

/// Whether the graph `g` entails the graph `e` (RDF 1.1 Semantics, section 5): a map of the nodes of `e` to
/// terms of `g` that carries `e` into `g`, or nothing where there is none. Each search of a component of
/// `e` tries at most `limit` maps of its first nodes, the empty one among them.
pub fn entails(
    alloc: Global,
    g: &Dataset,
    e: &Dataset,
    limit: u64,
) -> Result<Option<InstanceMap>, EntailStop>
    ensures answer { IfOk result (IsEntailAnswer g.now e.now) }
    ensures stop { IfErr result (IsEntailStop g.now e.now limit) }
{
    if let Some(quad) = named_quad(g) {
        return Err(EntailStop::NotOneGraph { file: 0, quad });
    }
    if let Some(quad) = named_quad(e) {
        return Err(EntailStop::NotOneGraph { file: 1, quad });
    }
    entails_graph(alloc, g, e, limit)
}
