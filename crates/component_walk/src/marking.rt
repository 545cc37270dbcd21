//! Marks of several nodes.
ghost use Rattle.std.specs.Prelude.{◌≡◌, ◌<◌, ℕ, length, All};
ghost use Rattle.rdf_terms.specs.Lists.{In};
ghost use Rattle.map_search.specs.Marks.{mark_at};

/// Gives each of the nodes this mark.
pub fn mark_all(marks: &mut [bool], nodes: &[u32], mark: bool)
    requires { All (λ n. n < length marks.old) nodes.now }
    ensures here { (k : ℕ) → In k nodes.now → k < length marks.old → mark_at marks.new k ≡ mark }
    ensures others { (k : ℕ) → (¬ (In k nodes.now)) → mark_at marks.new k ≡ mark_at marks.old k }
{
    for node in nodes {
        marks[*node as usize] = mark;
    }
}
