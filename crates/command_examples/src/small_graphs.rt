//! Small graphs, each held against a search through all maps of its nodes.
use run_trials::{outcome_of, plain};
use std::alloc::Global;
use std::hash::RandomState;
use std::process::Abort;
use std::test::Fail;

// Triples over three nodes and a name, with two predicates: a subject, a predicate and an object by
// number, the name being 3.
const TRIPLES: [(u32, u32, u32); 8] = [
    (0, 0, 1),
    (1, 0, 2),
    (2, 0, 0),
    (1, 0, 1),
    (0, 1, 2),
    (0, 0, 3),
    (3, 0, 1),
    (2, 1, 3),
];

// The same as lines.
const LINES: [&str; 8] = [
    "_:a <e:p> _:b .\n",
    "_:b <e:p> _:c .\n",
    "_:c <e:p> _:a .\n",
    "_:b <e:p> _:b .\n",
    "_:a <e:q> _:c .\n",
    "_:a <e:p> <e:n> .\n",
    "<e:n> <e:p> _:b .\n",
    "_:c <e:q> <e:n> .\n",
];

// Whether the triple at the place is one of the graph, which has a bit for each.
fn has(graph: u32, place: usize) -> bool {
    place < 8 && graph >> place & 1 == 1
}

// What one of the 64 maps of nodes, by its number, makes of a term.
fn image_of(map: u32, term: u32) -> u32 {
    match term {
        0 => map % 4,
        1 => map / 4 % 4,
        2 => map / 16 % 4,
        _ => 3,
    }
}

// Where the map takes a triple, if that is a triple of the graph.
fn place_in(graph: u32, map: u32, triple: (u32, u32, u32)) -> Option<usize> {
    let (subject, predicate, object) = triple;
    let image = (image_of(map, subject), predicate, image_of(map, object));
    let place = TRIPLES.iter().position(|other| *other == image)?;
    if has(graph, place) { Some(place) } else { None }
}

// The graph that the map takes the graph to, if all of it lies within the graph.
fn image_in(graph: u32, map: u32) -> Option<[bool; 8]> {
    let mut image = [false; 8];
    for (place, triple) in TRIPLES.iter().enumerate() {
        if has(graph, place) {
            let there = image.get_mut(place_in(graph, map, *triple)?)?;
            *there = true;
        }
    }
    Some(image)
}

fn size_of_graph(graph: [bool; 8]) -> usize {
    graph.iter().filter(|there| **there).count()
}

// How many triples the smallest graph has that a map takes the graph to, within it.
fn least_size(graph: u32) -> usize {
    let mut least = 8;
    for map in 0..64 {
        if let Some(image) = image_in(graph, map) {
            least = least.min(size_of_graph(image));
        }
    }
    least
}

// The lines of the graph.
fn text_of(alloc: Global, graph: u32) -> Result<String, Fail> {
    let mut text = String::new(alloc);
    for (place, line) in LINES.iter().enumerate() {
        if has(graph, place) {
            text.push_str(line)?;
        }
    }
    Ok(text)
}

// How many triples `lean` writes of the graph.
fn lean_size(alloc: Global, keys: RandomState, graph: u32) -> Result<usize, Fail> {
    let text = text_of(alloc, graph)?;
    let ended = outcome_of(alloc, keys, &plain(&["lean", "f"], text.as_str()))?;
    Ok(
        ended
            .ending()
            .out
            .iter()
            .filter(|byte| **byte == b'\n')
            .count(),
    )
}

fn assert_size(rt: &impl Abort, size: usize, want: usize, graph: u32) {
    assert_eq!(rt; size, want, "graph {graph}");
}

#[test]
fn a_lean_graph_is_the_smallest_that_a_map_makes(rt: HostRuntime) -> Result<(), Fail> {
    let keys = RandomState::new(&rt)?;
    for graph in 0..256 {
        let size = lean_size(rt.alloc(), keys, graph)?;
        assert_size(&rt, size, least_size(graph), graph);
    }
    Ok(())
}
