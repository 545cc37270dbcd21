//! A call of Hash N-Degree Quads that stands open (RDF Dataset Canonicalization, section 4.8).

use crate::group_stack::GroupStack;
use crate::paths::Paths;
use arrangements::Arrangement;
use rdf_terms::NodeList;

// A call that stands open.
#[derive(Drop)]
pub(crate) struct Frame {
    // The data to hash so far; in a group with its related hash.
    pub text: Vec<u8>,
    // The groups that are left behind the one in progress.
    pub groups: GroupStack,
    // How long the trail was when the group was begun.
    pub mark: u32,
    // The permutation in progress.
    pub arrangement: Arrangement,
    // Its path so far, and the chosen path.
    pub paths: Paths,
    // The rest of its recursion list: the nodes of the trail from `next` to `last`.
    pub next: u32,
    pub last: u32,
    // Whether the issuer of the chosen path is the trail as it stands; where it is not, its nodes
    // behind the mark.
    pub on_trail: bool,
    pub tail: Vec<u32>,
    // The nodes behind the mark of each other permutation with the chosen path.
    pub others: Vec<NodeList>,
}
