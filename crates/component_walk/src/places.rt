//! The place of each term in a list of terms.
ghost use Rattle.std.specs.Prelude.{◌≡◌, ◌<◌, ◌^◌, length, All};
ghost use Rattle.rdf_terms.specs.Lists.{AreDistinct};
ghost use Rattle.component_walk.specs.Places.{AreNoPlaces, ArePlaces};

use rdf_terms::MOST_NUMBERS;

/// What stands for a term without a place.
pub const NONE: u32 = u32::MAX;

/// Gives each of the terms its place, counted from 0.
pub fn set_places(place_of: &mut [u32], terms: &[u32])
    requires none { AreNoPlaces (length place_of.old) place_of.old }
    requires once { AreDistinct terms.now }
    requires within { All (λ t. t < length place_of.old) terms.now }
    requires few { length terms.now < MOST_NUMBERS }
    ensures { ArePlaces (length place_of.old) place_of.new terms.now }
{
    for (place, term) in terms.iter().enumerate() {
        place_of[*term as usize] = place as u32;
    }
}

/// Takes the places of the terms away.
pub fn clear_places(place_of: &mut [u32], terms: &[u32])
    requires within { All (λ t. t < length place_of.old) terms.now }
    requires places { ArePlaces (length place_of.old) place_of.old terms.now }
    ensures { AreNoPlaces (length place_of.old) place_of.new }
{
    for term in terms {
        place_of[*term as usize] = NONE;
    }
}
