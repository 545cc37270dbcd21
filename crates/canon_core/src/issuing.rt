//! Canonical identifiers for several nodes, one after the other.
ghost use Rattle.std.specs.Prelude.{◌≡◌, ◌<◌, All, IfOk, OnOk};
ghost use Rattle.canon_model.specs.Issuer.{issue_each};
ghost use Rattle.canon_model.specs.Allowed.{issue_results as issued_results};

use crate::path_result::PathResult;
use id_issuer::Issuer;
use rdf_terms::NoMemory;
use std::alloc::Global;

// Issues identifiers for these nodes in their order.
pub(crate) fn issue_all(issuer: &mut Issuer, nodes: &[u32]) -> Result<(), NoMemory>
    requires { All (λ n. n < u32.MAX) nodes.now }
    ensures list { OnOk result (issuer.new.list ≡ issue_each issuer.old.list nodes.now) }
    ensures prefix { issuer.new.prefix ≡ issuer.old.prefix }
{
    for node in nodes {
        issuer.issue(*node)?;
    }
    Ok(())
}

// Issues identifiers for the nodes of each result, in the order of the results (RDF Dataset Canonicalization, section
// 4.4, step 5.3).
pub(crate) fn issue_results(canon: &mut Issuer, results: &[PathResult]) -> Result<(), NoMemory>
    requires { All (λ r. All (λ n. n < u32.MAX) r.issuer) results.now }
    ensures list { OnOk result (canon.new.list ≡ issued_results canon.old.list results.now) }
    ensures prefix { canon.new.prefix ≡ canon.old.prefix }
{
    for result in results {
        issue_all(canon, result.list())?;
    }
    Ok(())
}

// The nodes that have an identifier, in the order in which they got it.
pub(crate) fn issued_nodes(alloc: Global, issuer: &Issuer) -> Result<Vec<u32>, NoMemory>
    ensures { IfOk result (λ nodes. nodes.items ≡ issuer.now.list) }
{
    Ok(issuer.list().to_vec(alloc)?)
}
