//! The nodes of a permutation (RDF Dataset Canonicalization, section 4.8, step 5.4.4).

ghost use Rattle.std.specs.Prelude.{◌≡◌, ◌<◌, [], OnOk, IfOk, All};
ghost use Rattle.canon_model.specs.Walk.{issuer_copy_after_node};
ghost use Rattle.ndegree_hash.specs.PathChoice.{chosen_if, IsSameChoice};
ghost use Rattle.ndegree_hash.specs.Walks.{Walks, KeepsTrail};

use crate::paths::Paths;
use id_issuer::Issuer;
use rdf_terms::{NoMemory, Prefix};

// The trail issues for a node unless one of the issuers has.
fn issue_for(canon: &Issuer, trail: &mut Issuer, node: u32) -> Result<(), NoMemory>
    requires { node < u32.MAX }
    ensures list { OnOk result (trail.new.list ≡ issuer_copy_after_node canon.now.list trail.old.list node) }
    ensures prefix { trail.new.prefix ≡ trail.old.prefix }
{
    match canon.id_of(node) {
        Some(_) => Ok(()),
        None => {
            trail.issue(node)?;
            Ok(())
        }
    }
}

// Writes the nodes of a permutation in turn, and answers whether it is skipped on the way.
pub(crate) fn walk(
    canon: &Issuer,
    trail: &mut Issuer,
    nodes: &[u32],
    paths: &mut Paths,
) -> Result<bool, NoMemory>
    requires nodes { All (λ n. n < u32.MAX) nodes.now }
    requires canonical { canon.now.prefix ≡ Prefix.Canonical }
    requires temporary { trail.old.prefix ≡ Prefix.Temporary }
    requires path { paths.old.path ≡ [] }
    ensures walks { IfOk result (λ skipped. Walks canon.now.list trail.old.list nodes.now (chosen_if paths.old.has_choice paths.old.chosen) skipped trail.new.list paths.new.path) }
    ensures choice { OnOk result (IsSameChoice paths.old paths.new) }
    ensures sound { OnOk result (KeepsTrail canon.now.list nodes.now trail.old.list trail.new.list) }
    ensures prefix { trail.new.prefix ≡ trail.old.prefix }
{
    for node in nodes {
        issue_for(canon, trail, *node)?;
        paths.push_label(canon, trail, *node)?;
        if paths.is_past() {
            return Ok(true);
        }
    }
    Ok(false)
}
