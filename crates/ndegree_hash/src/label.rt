//! Blank nodes as they stand in a path.

ghost use Rattle.std.specs.Prelude.{◌≡◌, ◌++◌, OnOk, OnErr};
ghost use Rattle.canon_model.specs.Issuer.{label};

use canonical_writer::push_numbered;
use id_issuer::Issuer;
use rdf_terms::{NoMemory, Prefix};

// Appends `_:` and the identifier of a node, the canonical one where there is one. Of a node that no
// issuer has issued for it appends nothing.
pub(crate) fn push_label(
    path: &mut Vec<u8>,
    canon: &Issuer,
    trail: &Issuer,
    node: u32,
) -> Result<(), NoMemory>
    requires canonical { canon.now.prefix ≡ Prefix.Canonical }
    requires temporary { trail.now.prefix ≡ Prefix.Temporary }
    ensures ok { OnOk result (path.new.items ≡ path.old.items ++ label canon.now.list trail.now.list node) }
    ensures err { OnErr result (path.new.items ≡ path.old.items) }
{
    if let Some(place) = canon.id_of(node) {
        return push_numbered(path, b"_:c14n", place);
    }
    if let Some(place) = trail.id_of(node) {
        return push_numbered(path, b"_:b", place);
    }
    Ok(())
}
