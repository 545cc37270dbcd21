//! Groups that are being gathered.

ghost use Rattle.std.specs.Prelude.{◌≡◌, [], ◌∷◌, length, OnOk, MatchOption};
ghost use Rattle.related_hash.specs.Entries.{related_entry};
ghost use Rattle.related_hash.specs.Gathering.{with_entry};

use crate::entry::Entry;
use canon_model::HexHash;
use rdf_terms::NoMemory;
use std::alloc::Global;
use std::marker::Model;

// A related hash, and the nodes that were gathered under it, in any order.
#[derive(Drop)]
pub(crate) struct OpenGroup {
    pub hash: HexHash,
    pub nodes: Vec<u32>,
}

impl Model for OpenGroup {
    ghost use Rattle.related_hash.specs.declared.group.Group.{Group};

    ghost Value = { Group };

    ghost view = { λ g. record { hash = g.hash; nodes = g.nodes.items } };
}

// Groups in a row, the first of them last in the vector.
#[derive(Drop)]
pub(crate) struct OpenGroups {
    groups: Vec<OpenGroup>,
}

impl Model for OpenGroups {
    ghost use Rattle.std.specs.Prelude.{List, reverse};
    ghost use Rattle.related_hash.specs.declared.group.Group.{Group};

    ghost Value = { List Group };

    ghost view = { λ g. reverse g.groups.items };
}

impl OpenGroups {
    pub(crate) fn new(alloc: Global) -> Self
        ensures { result ≡ [] }
    {
        OpenGroups {
            groups: Vec::new(alloc),
        }
    }

    // Puts an entry in front: into the first group where that has its hash, else into a group of
    // its own.
    pub(crate) fn add(&mut self, alloc: Global, entry: Entry) -> Result<(), NoMemory>
        ensures { OnOk result (self.new ≡ with_entry (related_entry entry) self.old) }
    {
        if let Some(mut group) = self.groups.pop() {
            if group.hash == entry.hash {
                group.nodes.push(entry.node)?;
                self.groups.push(group)?;
                return Ok(());
            }
            self.groups.push(group)?;
        }
        let mut nodes = Vec::new(alloc);
        nodes.push(entry.node)?;
        self.groups.push(OpenGroup {
            hash: entry.hash,
            nodes,
        })?;
        Ok(())
    }

    pub(crate) fn len(&self) -> usize
        ensures { result ≡ length self.now }
    {
        self.groups.len()
    }

    // Takes the first group out.
    pub(crate) fn next(&mut self) -> Option<OpenGroup>
        ensures { MatchOption result ((self.old ≡ []) × (self.new ≡ [])) (λ g. self.old ≡ g ∷ self.new) }
    {
        self.groups.pop()
    }
}
