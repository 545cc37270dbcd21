//! What the triples of each node of a component ask of its image in the other graph.
ghost use Rattle.std.specs.Prelude.{◌≡◌, map, slice_index, IfOk};
ghost use Rattle.entail.specs.Numbers.{condition_by, end_by};

use crate::crossing::number_at;
use map_search::{Condition, End};
use rdf_terms::NoMemory;
use std::alloc::Global;

fn end_in(numbers: &[u32], end: End) -> End
    ensures { result ≡ end_by (slice_index numbers.now) end }
{
    match end {
        End::Fixed(number) => End::Fixed(number_at(numbers, number)),
        End::Place(place) => End::Place(place),
    }
}

// The condition by these numbers.
fn condition_in(numbers: &[u32], condition: Condition) -> Condition
    ensures { result ≡ condition_by (slice_index numbers.now) condition }
{
    match condition {
        Condition::Subject(p, o) => {
            Condition::Subject(number_at(numbers, p), end_in(numbers, o))
        }
        Condition::Object(s, p) => Condition::Object(end_in(numbers, s), number_at(numbers, p)),
        Condition::Both(p) => Condition::Both(number_at(numbers, p)),
        Condition::SomeSubject(p) => Condition::SomeSubject(number_at(numbers, p)),
        Condition::SomeObject(p) => Condition::SomeObject(number_at(numbers, p)),
    }
}

fn row_in(alloc: Global, numbers: &[u32], row: &[Condition]) -> Result<Vec<Condition>, NoMemory>
    ensures { IfOk result (λ new. new.items ≡ map (condition_by (slice_index numbers.now)) row.now) }
{
    let mut new = Vec::new(alloc);
    for condition in row {
        new.push(condition_in(numbers, *condition))?;
    }
    Ok(new)
}

// The rows by these numbers.
pub(crate) fn rows_in(
    alloc: Global,
    numbers: &[u32],
    rows: &[Vec<Condition>],
) -> Result<Vec<Vec<Condition>>, NoMemory>
    ensures { IfOk result (λ new. map (λ row. row.items) new.items ≡ map (map (condition_by (slice_index numbers.now))) (map (λ row. row.items) rows.now)) }
{
    let mut new = Vec::new(alloc);
    for row in rows {
        new.push(row_in(alloc, numbers, row.as_slice())?)?;
    }
    Ok(new)
}
