//! A search through all maps of the places of a problem, place by place.
ghost use Rattle.std.specs.Prelude.{◌≡◌, ℕ, ◌<◌, ◌^◌, List, [], ◌∷◌, ◌++◌, length, IfOk, IfSome, IfNone};
ghost use Rattle.map_search.specs.Maps.{IsMap, IsNext, NoneFits};
ghost use Rattle.map_search.specs.Ends.{IsEnding};

use rdf_terms::NoMemory;
use std::alloc::Global;

/// Places that are to be mapped to numbers, one after the other.
pub trait Problem {
    ghost use Rattle.std.specs.Prelude.{ℕ, Bool, List, IfOk};

    /// How many places there are.
    ghost places: { Self → ℕ };

    /// Images are below this number.
    ghost bound: { Self → ℕ };

    /// Whether the next place may have this image, behind the images of the places before it.
    ghost fits: { Self → List ℕ → ℕ → Bool };

    /// Whether these images of all places are what is looked for.
    ghost sought: { Self → List ℕ → Bool };

    fn places(&self) -> usize
        ensures places { result ≡ places self.now }
        ensures bound { bound self.now < 2 ^ 32 };

    /// The least image from `from` on that the next place may have.
    fn next(&self, images: &[u32], from: u32) -> Option<u32>
        requires short { length images.now < places self.now }
        requires is_map { IsMap (bound self.now) (fits self.now) images.now }
        ensures some { IfSome result (IsNext (bound self.now) (fits self.now images.now) from) }
        ensures none { IfNone result (NoneFits (bound self.now) (fits self.now images.now) from) };

    fn is_sought(&self, alloc: Global, images: &[u32]) -> Result<bool, NoMemory>
        requires whole { length images.now ≡ places self.now }
        requires is_map { IsMap (bound self.now) (fits self.now) images.now }
        ensures { IfOk result (λ is. is ≡ sought self.now images.now) };
}

/// How a search ends: with a map that is sought, or there is none, or more maps of first places were
/// met than the limit.
#[derive(Debug, Drop)]
pub enum Ending {
    Found(Vec<u32>),
    Nothing,
    PastLimit,
}

fn drop_last(images: &mut Vec<u32>)
    ensures { (front : List ℕ) (last : ℕ) → images.old.items ≡ front ++ last ∷ [] → images.new.items ≡ front }
{
    images.pop();
}

/// Looks for the first map of all places that is sought, and meets at most `limit` maps of first
/// places on the way, the empty one among them.
pub fn find_map<P: Problem>(alloc: Global, problem: &P, limit: u64) -> Result<Ending, NoMemory>
    requires { 0 < P.places problem.now }
    ensures { IfOk result (IsEnding (P.bound problem.now) (P.fits problem.now) (P.places problem.now) (P.sought problem.now) limit) }
{
    if limit == 0 {
        return Ok(Ending::PastLimit);
    }
    let places = problem.places();
    let mut images: Vec<u32> = Vec::new(alloc);
    let mut from = 0;
    let mut tried = 1;
    'maps: loop {
        match problem.next(images.as_slice(), from) {
            None => match images.pop() {
                None => return Ok(Ending::Nothing),
                Some(last) => from = last + 1,
            },
            Some(image) => {
                if tried == limit {
                    return Ok(Ending::PastLimit);
                }
                tried += 1;
                images.push(image)?;
                if images.len() < places {
                    from = 0;
                } else {
                    let is_sought = problem.is_sought(alloc, images.as_slice())?;
                    if is_sought {
                        return Ok(Ending::Found(images));
                    }
                    drop_last(&mut images);
                    from = image + 1;
                }
            }
        }
    }
}
