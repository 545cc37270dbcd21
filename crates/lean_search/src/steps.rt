//! The maps that were found, one after the other.
ghost use Rattle.std.specs.Prelude.{◌≡◌, ◌<◌, ℕ, length, map, slice_index, All, IfOk, OnOk};
ghost use Rattle.map_search.specs.Pattern.{map_of};
ghost use Rattle.lean_search.specs.Steps.{map_by_steps, put_all, AreSteps, IsStep};

use rdf_terms::NoMemory;
use std::alloc::Global;

// Takes terms to terms, by their numbers, each to the image at its place, and keeps all others.
#[derive(Debug, Drop)]
pub(crate) struct Step {
    pub(crate) terms: Vec<u32>,
    pub(crate) images: Vec<u32>,
}

fn numbers_below(alloc: Global, count: u32) -> Result<Vec<u32>, NoMemory>
    ensures length { IfOk result (λ xs. length xs.items ≡ count) }
    ensures each { IfOk result (λ xs. (k : ℕ) → k < count → slice_index xs.items k ≡ k) }
{
    let mut numbers = Vec::new(alloc);
    for number in 0..count {
        numbers.push(number)?;
    }
    Ok(numbers)
}

// Where each of the images is taken to.
fn taken_on(alloc: Global, to: &[u32], images: &[u32]) -> Result<Vec<u32>, NoMemory>
    requires { All (λ t. t < length to.now) images.now }
    ensures { IfOk result (λ xs. xs.items ≡ map (slice_index to.now) images.now) }
{
    let mut taken = Vec::new(alloc);
    for image in images {
        taken.push(to[*image as usize])?;
    }
    Ok(taken)
}

fn write_all(to: &mut [u32], terms: &[u32], images: &[u32])
    requires within { All (λ t. t < length to.old) terms.now }
    requires count { length images.now ≡ length terms.now }
    ensures { to.new ≡ put_all to.old terms.now images.now }
{
    for (place, term) in terms.iter().enumerate() {
        to[*term as usize] = images[place];
    }
}

// Goes by the step first, and then as before.
fn begin_with(alloc: Global, to: &mut Vec<u32>, step: &Step) -> Result<(), NoMemory>
    requires { IsStep (length to.old.items) step.now }
    ensures length { OnOk result (length to.new.items ≡ length to.old.items) }
    ensures each { OnOk result ((k : ℕ) → k < length to.old.items → slice_index to.new.items k ≡ slice_index to.old.items (map_of step.now.terms.items step.now.images.items k)) }
{
    let images = taken_on(alloc, to.as_slice(), step.images.as_slice())?;
    write_all(to.as_mut_slice(), step.terms.as_slice(), images.as_slice());
    Ok(())
}

// All steps, the first one first, as one map of so many terms. It is made from the last step back, so
// that each step changes what its own terms are taken to and nothing else.
pub(crate) fn composed(alloc: Global, steps: &[Step], terms: u32) -> Result<Vec<u32>, NoMemory>
    requires { AreSteps terms steps.now }
    ensures length { IfOk result (λ to. length to.items ≡ terms) }
    ensures each { IfOk result (λ to. (k : ℕ) → k < terms → slice_index to.items k ≡ map_by_steps steps.now k) }
{
    let mut to = numbers_below(alloc, terms)?;
    let mut at = steps.len();
    while at > 0 {
        at -= 1;
        begin_with(alloc, &mut to, &steps[at])?;
    }
    Ok(to)
}
