//! Laws of the sequence of all arrangements of a bag.
ghost use Rattle.arrangements.specs.Arrangements.{GoesThroughAll, ComesToALast};

/// From the first arrangement of a bag on, the steps to the next, up to the last, come by every
/// arrangement of the bag exactly once and in lexicographic order.
pub fn goes_through_all()
    ensures { GoesThroughAll }
{}

/// Each bag has a first arrangement, and the steps to the next come to a last one after finitely many.
pub fn comes_to_a_last()
    ensures { ComesToALast }
{}
