//! The lines of the quads of one node, and their hash.

ghost use Rattle.std.specs.Prelude.{◌≡◌, ◌<◌, ◌++◌, [], ◌∷◌, length, IfOk, OnOk};
ghost use Rattle.rdf_terms.specs.Document.{dataset as dataset_of};
ghost use Rattle.canon_model.specs.Meaning.{meaning};
ghost use Rattle.canon_model.specs.FirstDegree.{hash_first_degree_quads};
ghost use Rattle.first_degree.specs.FirstHashes.{first_degree_lines, line_at};

use crate::digest::hash_sorted;
use canon_model::{HexHash, Profile};
use canonical_writer::{DegreeNames, Lines};
use dataset_index::Dataset;
use rdf_terms::NoMemory;
use std::alloc::Global;

// Adds the line of the quad in this place, with the node as `_:a` and each other blank node as `_:z`.
fn push_line_at(lines: &mut Lines, dataset: &Dataset, node: u32, place: u32) -> Result<(), NoMemory>
    requires { place < length dataset.now.quads }
    ensures { OnOk result (lines.new ≡ lines.old ++ line_at dataset.now node place ∷ []) }
{
    let quad = dataset.quads()[place as usize];
    lines.push(dataset.terms(), quad, &DegreeNames { node })
}

// Leaves the lines of the quads that mention the node, and no others.
fn write_lines(lines: &mut Lines, dataset: &Dataset, node: u32) -> Result<(), NoMemory>
    requires { node < length dataset.now.labels }
    ensures { OnOk result (lines.new ≡ first_degree_lines dataset.now node) }
{
    let places = dataset.quads_of(node);
    lines.clear();
    for place in places {
        push_line_at(lines, dataset, node, *place)?;
    }
    Ok(())
}

// The first-degree hash of one node. What the lines were before does not matter.
pub(crate) fn hash_node(
    alloc: Global,
    lines: &mut Lines,
    dataset: &Dataset,
    node: u32,
    profile: Profile,
) -> Result<HexHash, NoMemory>
    requires { node < length dataset.now.labels }
    ensures { IfOk result (λ hash. hash ≡ hash_first_degree_quads (meaning profile) (dataset_of dataset.now) node) }
{
    write_lines(lines, dataset, node)?;
    let hash = hash_sorted(alloc, lines, profile)?;
    Ok(hash)
}
