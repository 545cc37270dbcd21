//! What the triples of a node ask of its image, and the next number that meets it all.
ghost use Rattle.std.specs.Prelude.{◌≡◌, ℕ, ◌<◌, ◌≤◌, ◌^◌, true, length, IfSome, IfNone};
ghost use Rattle.map_search.specs.Maps.{IsNext, NoneFits};
ghost use Rattle.map_search.specs.Rows.{meets_all, IsPassed};

/// An end of a triple: a term of the target, or the image of an earlier place.
#[derive(Clone, Copy, Debug, PartialEq, Eq)]
pub enum End {
    Fixed(u32),
    Place(u32),
}

/// What a triple of a node asks of the node's image, which is the triple's subject or object. Where
/// the other end has no image yet, some term is to stand there.
#[derive(Clone, Copy, Debug, PartialEq, Eq)]
pub enum Condition {
    /// The predicate and the object.
    Subject(u32, End),
    /// The subject and the predicate.
    Object(End, u32),
    /// The predicate of a triple with this node at both ends.
    Both(u32),
    /// The predicate.
    SomeSubject(u32),
    /// The predicate.
    SomeObject(u32),
}

/// A graph in which numbers are looked up that meet a condition.
pub trait Lookup {
    ghost use Rattle.std.specs.Prelude.{ℕ, Bool, List};
    ghost use Rattle.map_search.specs.declared.rows.Condition.{Condition};

    /// Its terms have numbers below this one.
    ghost bound: { Self → ℕ };

    ghost meets: { Self → List ℕ → Condition → ℕ → Bool };

    fn bound(&self) -> u32
        ensures { result ≡ bound self.now };

    /// The least number from `from` on that meets the condition, behind these images.
    fn next(&self, condition: Condition, images: &[u32], from: u32) -> Option<u32>
        ensures some { IfSome result (IsNext (bound self.now) (meets self.now images.now condition) from) }
        ensures none { IfNone result (NoneFits (bound self.now) (meets self.now images.now condition) from) };
}

// Moves on past numbers that do not meet one of the conditions. Where it stays, all are met.
fn pass<L: Lookup>(lookup: &L, row: &[Condition], images: &[u32], from: u32) -> Option<u32>
    requires { from < L.bound lookup.now }
    ensures some { IfSome result (IsPassed (L.bound lookup.now) (L.meets lookup.now images.now) row.now from) }
    ensures none { IfNone result (NoneFits (L.bound lookup.now) (meets_all (L.meets lookup.now images.now) row.now) from) }
{
    let mut at = from;
    for condition in row {
        match lookup.next(*condition, images, at) {
            None => return None,
            Some(next) => at = next,
        }
    }
    Some(at)
}

/// The least number from `from` on that meets all the conditions, behind these images.
pub fn next_in_row<L: Lookup>(
    lookup: &L,
    row: &[Condition],
    images: &[u32],
    from: u32,
) -> Option<u32>
    ensures some { IfSome result (IsNext (L.bound lookup.now) (meets_all (L.meets lookup.now images.now) row.now) from) }
    ensures none { IfNone result (NoneFits (L.bound lookup.now) (meets_all (L.meets lookup.now images.now) row.now) from) }
{
    if from >= lookup.bound() {
        return None;
    }
    let mut at = from;
    'passes: loop {
        match pass(lookup, row, images, at) {
            None => return None,
            Some(next) => {
                if next == at {
                    return Some(at);
                }
                at = next;
            }
        }
    }
}
