//! Which quads mention which nodes.
ghost use Rattle.std.specs.Prelude.{◌≡◌, ◌+◌, ◌*◌, ◌<◌, ◌≤◌, ◌^◌, length, map, All, IfOk, IfSome, OnOk};
ghost use Rattle.rdf_terms.specs.Document.{statement, IsInRange};
ghost use Rattle.rdf_terms.specs.Dataset.{mentions};
ghost use Rattle.dataset_index.specs.Mentions.{node_of_name, is_node_some, MentionsMore, AreMentions};

use crate::mention::Mention;
use crate::term_nodes::TermNodes;
use rdf_terms::{MOST_QUADS, NoMemory, Quad};
use std::alloc::Global;

fn node_of_graph_name(nodes: &TermNodes<'_>, graph_name: Option<u32>) -> Option<u32>
    requires { IfSome graph_name (λ g. g < length nodes.now) }
    ensures { result ≡ node_of_name nodes.now graph_name }
{
    match graph_name {
        Some(number) => nodes.node_of(number),
        None => None,
    }
}

fn push_mention(found: &mut Vec<Mention>, node: Option<u32>, place: u32) -> Result<(), NoMemory>
    ensures added { OnOk result (MentionsMore found.old.items found.new.items (λ n. is_node_some n node) place) }
    ensures length { length found.new.items ≤ length found.old.items + 1 }
{
    if let Some(node) = node {
        found.push(Mention { node, place })?;
    }
    Ok(())
}

// Adds a mention for each node that the quad mentions, once for each.
fn push_mentions(
    found: &mut Vec<Mention>,
    nodes: &TermNodes<'_>,
    quad: Quad,
    place: u32,
) -> Result<(), NoMemory>
    requires { IsInRange nodes.now quad }
    ensures added { OnOk result (MentionsMore found.old.items found.new.items (λ n. mentions n (statement nodes.now quad)) place) }
    ensures length { length found.new.items ≤ length found.old.items + 3 }
{
    let subject = nodes.node_of(quad.s);
    let object = nodes.node_of(quad.o);
    let graph_name = node_of_graph_name(nodes, quad.g);
    push_mention(found, subject, place)?;
    if object != subject {
        push_mention(found, object, place)?;
    }
    if graph_name != subject && graph_name != object {
        push_mention(found, graph_name, place)?;
    }
    Ok(())
}

// The mentions of all quads, in the order of their places.
pub(crate) fn all_mentions(
    alloc: Global,
    nodes: &TermNodes<'_>,
    quads: &[Quad],
) -> Result<Vec<Mention>, NoMemory>
    requires in_range { All (IsInRange nodes.now) quads.now }
    requires bound { length quads.now ≤ MOST_QUADS }
    ensures places { IfOk result (λ found. AreMentions (map (statement nodes.now) quads.now) found.items (length quads.now)) }
    ensures length { IfOk result (λ found. length found.items < 2 ^ 32) }
{
    let mut found = Vec::new(alloc);
    for (place, quad) in quads.iter().enumerate() {
        push_mentions(&mut found, nodes, *quad, place as u32)?;
    }
    Ok(found)
}
