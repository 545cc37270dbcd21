//! The search of one component for a map into the graph.
ghost use Rattle.std.specs.Prelude.{◌≡◌, ◌<◌, ℕ, IfOk, OnOk, length, slice_index, All};
ghost use Rattle.rdf_terms.specs.Lists.{In, AreDistinct};
ghost use Rattle.rdf_terms.specs.Dataset.{IsUsed};
ghost use Rattle.rdf_terms.specs.Document.{statements};
ghost use Rattle.component_walk.specs.Image.{AreTermsOf};
ghost use Rattle.component_walk.specs.Places.{ArePlaces};
ghost use Rattle.component_walk.specs.Walk.{IsWalk, IsWalkFrom};
ghost use Rattle.entail.specs.Crossed.{AreCrossed};
ghost use Rattle.entail.specs.Searched.{IfFound, IsComponentSearched, IsKept, IsWalkSearched, MeansInto};
ghost use Rattle.entail.specs.Workspace.{IsWorkspace};

use crate::any::AnyMap;
use crate::bound::most_bound;
use crate::crossing::Crossing;
use crate::rows::rows_in;
use crate::workspace::Workspace;
use component_walk::{clear_places, rows_of, set_places, terms_of, walk_from};
use map_search::{Ending, find_map};
use rdf_terms::{MOST_NUMBERS, NoMemory};
use std::alloc::Global;

// How the search of a component ends: a map was found, there is none, or more partial maps were met
// than the limit.
#[derive(Clone, Copy, Debug, PartialEq, Eq)]
pub(crate) enum Searched {
    Mapped,
    Unmapped,
    PastLimit,
}

// Looks for a map of the nodes of the walk into the graph.
fn find(
    alloc: Global,
    crossing: &Crossing<'_>,
    place_of: &[u32],
    walk: &[u32],
    own: &[u32],
    limit: u64,
) -> Result<Ending, NoMemory>
    requires crossed { AreCrossed crossing.now }
    requires walk { IsWalk (statements crossing.now.entailed.now) walk.now }
    requires terms { AreTermsOf crossing.now.entailed.now walk.now own.now }
    requires in_range { All (λ t. t < length crossing.now.entailed.now.terms) own.now }
    requires few { length own.now < MOST_NUMBERS }
    requires places { ArePlaces (length crossing.now.entailed.now.terms) place_of.now own.now }
    ensures { IfOk result (MeansInto (statements crossing.now.entailed.now) (statements crossing.now.graph.now) crossing.now.graph.now.terms walk.now limit) }
{
    let rows = rows_of(
        alloc,
        crossing.entailed,
        &crossing.entailed_index,
        place_of,
        walk,
        own,
    )?;
    let crossed = rows_in(alloc, crossing.numbers.as_slice(), rows.as_slice())?;
    let problem = AnyMap {
        index: &crossing.graph_index,
        rows: crossed.as_slice(),
    };
    find_map(alloc, &problem, limit)
}

// Gives each node of the walk the image at its place.
fn write_images(images: &mut [u32], walk: &[u32], found: &[u32])
    requires within { All (λ n. n < length images.old) walk.now }
    requires count { length found.now ≡ length walk.now }
    requires once { AreDistinct walk.now }
    ensures length { length images.new ≡ length images.old }
    ensures here { (k : ℕ) → k < length walk.now → slice_index images.new (slice_index walk.now k) ≡ slice_index found.now k }
    ensures others { (n : ℕ) → (¬ (In n walk.now)) → slice_index images.new n ≡ slice_index images.old n }
{
    for (place, node) in walk.iter().enumerate() {
        images[*node as usize] = found[place];
    }
}

// Keeps what was found.
fn keep(images: &mut Vec<u32>, walk: &[u32], ending: &Ending) -> Searched
    requires within { All (λ n. n < length images.old.items) walk.now }
    requires once { AreDistinct walk.now }
    requires count { IfFound ending.now (λ found. length found ≡ length walk.now) }
    ensures length { length images.new.items ≡ length images.old.items }
    ensures kept { IsKept walk.now ending.now images.old.items images.new.items result }
{
    match ending {
        Ending::Found(found) => {
            write_images(images.as_mut_slice(), walk, found.as_slice());
            Searched::Mapped
        }
        Ending::Nothing => Searched::Unmapped,
        Ending::PastLimit => Searched::PastLimit,
    }
}

// Searches the nodes in this order.
fn search_walk(
    alloc: Global,
    crossing: &Crossing<'_>,
    workspace: &mut Workspace,
    walk: &[u32],
    limit: u64,
) -> Result<Searched, NoMemory>
    requires crossed { AreCrossed crossing.now }
    requires workspace { IsWorkspace crossing.now.entailed.now workspace.old }
    requires walk { IsWalk (statements crossing.now.entailed.now) walk.now }
    ensures workspace { OnOk result (IsWorkspace crossing.now.entailed.now workspace.new) }
    ensures searched { IfOk result (IsWalkSearched (statements crossing.now.entailed.now) (statements crossing.now.graph.now) crossing.now.graph.now.terms walk.now limit workspace.old.images.items workspace.new.images.items) }
{
    let own = terms_of(alloc, crossing.entailed, walk)?;
    set_places(workspace.place_of.as_mut_slice(), own.as_slice());
    let ending = find(
        alloc,
        crossing,
        workspace.place_of.as_slice(),
        walk,
        own.as_slice(),
        limit,
    )?;
    clear_places(workspace.place_of.as_mut_slice(), own.as_slice());
    Ok(keep(&mut workspace.images, walk, &ending))
}

// The component of the node, in walk order from the node on.
fn walk_in(
    alloc: Global,
    crossing: &Crossing<'_>,
    workspace: &mut Workspace,
    start: u32,
) -> Result<Vec<u32>, NoMemory>
    requires crossed { AreCrossed crossing.now }
    requires workspace { IsWorkspace crossing.now.entailed.now workspace.old }
    requires used { IsUsed (statements crossing.now.entailed.now) start }
    ensures walk { IfOk result (λ walk. IsWalkFrom (statements crossing.now.entailed.now) start walk.items) }
    ensures workspace { OnOk result (IsWorkspace crossing.now.entailed.now workspace.new) }
    ensures images { workspace.new.images ≡ workspace.old.images }
{
    walk_from(
        alloc,
        crossing.entailed,
        &crossing.entailed_index,
        workspace.walked.as_mut_slice(),
        &mut workspace.ahead,
        start,
    )
}

// Searches the component of the node. The order from the node with the fewest candidates on is tried
// first, since it meets the fewest partial maps; past the limit, the walk order is.
pub(crate) fn search_component(
    alloc: Global,
    crossing: &Crossing<'_>,
    workspace: &mut Workspace,
    start: u32,
    limit: u64,
) -> Result<Searched, NoMemory>
    requires crossed { AreCrossed crossing.now }
    requires workspace { IsWorkspace crossing.now.entailed.now workspace.old }
    requires used { IsUsed (statements crossing.now.entailed.now) start }
    ensures workspace { OnOk result (IsWorkspace crossing.now.entailed.now workspace.new) }
    ensures searched { IfOk result (IsComponentSearched (statements crossing.now.entailed.now) (statements crossing.now.graph.now) crossing.now.graph.now.terms start limit workspace.old.images.items workspace.new.images.items) }
{
    let walk = walk_in(alloc, crossing, workspace, start)?;
    let bound = most_bound(crossing, walk.as_slice());
    let quick = walk_in(alloc, crossing, workspace, bound)?;
    match search_walk(alloc, crossing, workspace, quick.as_slice(), limit)? {
        Searched::PastLimit => search_walk(alloc, crossing, workspace, walk.as_slice(), limit),
        searched => Ok(searched),
    }
}
