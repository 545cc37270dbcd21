//! The groups of a call that are left.

ghost use Rattle.std.specs.Prelude.{◌≡◌, [], ◌∷◌, MatchOption};

use related_hash::Group;
use std::marker::Model;

// The groups of a call that are left, the next one last.
#[derive(Drop)]
pub(crate) struct GroupStack {
    groups: Vec<Group>,
}

impl Model for GroupStack {
    ghost use Rattle.std.specs.Prelude.{List, reverse};
    ghost use Rattle.related_hash.specs.declared.group.Group.{Group as GroupValue};

    ghost Value = { List GroupValue };

    ghost view = { λ g. reverse g.groups.items };
}

impl GroupStack {
    // Takes groups over that stand in their order.
    pub(crate) fn new(groups: Vec<Group>) -> Self
        ensures { result ≡ groups.items }
    {
        let mut turned = groups;
        turned.as_mut_slice().reverse();
        GroupStack { groups: turned }
    }

    // Takes the next group out.
    pub(crate) fn next(&mut self) -> Option<Group>
        ensures { MatchOption result ((self.old ≡ []) × (self.new ≡ [])) (λ g. self.old ≡ g ∷ self.new) }
    {
        self.groups.pop()
    }
}
