//! The nodes of a group, as a profile reads them.

ghost use Rattle.std.specs.Prelude.{◌≡◌};
ghost use Rattle.rdf_terms.specs.Lists.{Permutes};
ghost use Rattle.canon_model.specs.Groups.{as_read};
ghost use Rattle.canon_model.specs.Meaning.{meaning};
ghost use Rattle.related_hash.specs.Grouping.{Ascends};

use canon_model::{Profile, Related};
use rdf_terms::NodeList;

// Leaves each node once, where the profile says so.
fn leave_once(nodes: &mut Vec<u32>, profile: Profile)
    requires { Ascends nodes.old.items }
    ensures { nodes.new.items ≡ as_read (meaning profile) nodes.old.items }
{
    match profile.related {
        Related::Each => {}
        Related::Once => nodes.dedup(),
    }
}

// The nodes ascending: each as often as it was met, or once, as the profile says.
pub(crate) fn as_profile_reads(nodes: Vec<u32>, profile: Profile) -> NodeList
    ensures permutes { Permutes (as_read (meaning profile) nodes.items) result }
    ensures ascending { Ascends result }
{
    let mut nodes = nodes;
    nodes.sort_unstable();
    leave_once(&mut nodes, profile);
    NodeList::new(nodes)
}
