//! What the search of a graph works with.
ghost use Rattle.std.specs.Prelude.{◌≡◌, ℕ, ◌<◌, length, slice_index, IfOk};
ghost use Rattle.component_walk.specs.Image.{IsOneGraph};
ghost use Rattle.entail.specs.Workspace.{IsWorkspace};

use component_walk::{no_marks, no_places};
use dataset_index::Dataset;
use map_search::Marks;
use rdf_terms::NoMemory;
use std::alloc::Global;

// The images that were found, one for each node: a number that is none of the graph's terms' where none
// was. A walk through a component and its search touch the places and marks of its own nodes alone, and
// take them back.
#[derive(Drop)]
pub(crate) struct Workspace {
    pub(crate) place_of: Vec<u32>,
    pub(crate) walked: Vec<bool>,
    pub(crate) ahead: Marks,
    pub(crate) images: Vec<u32>,
}

fn no_images(alloc: Global, nodes: u32, none: u32) -> Result<Vec<u32>, NoMemory>
    ensures count { IfOk result (λ images. length images.items ≡ nodes) }
    ensures none { IfOk result (λ images. (n : ℕ) → n < nodes → slice_index images.items n ≡ none) }
{
    Ok(vec![in alloc; none; nodes as usize]?)
}

// The workspace for the search of the graph, in which `none` stands for no image.
pub(crate) fn new_workspace(
    alloc: Global,
    entailed: &Dataset,
    none: u32,
) -> Result<Workspace, NoMemory>
    requires { IsOneGraph entailed.now }
    ensures workspace { IfOk result (IsWorkspace entailed.now) }
    ensures images { IfOk result (λ workspace. (n : ℕ) → n < length entailed.now.labels → slice_index workspace.images.items n ≡ none) }
{
    let nodes = entailed.node_count();
    Ok(Workspace {
        place_of: no_places(alloc, entailed.terms().len())?,
        walked: no_marks(alloc, nodes)?,
        ahead: Marks::new(alloc, nodes as usize, false)?,
        images: no_images(alloc, nodes, none)?,
    })
}
