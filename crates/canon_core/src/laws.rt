//! What holds of the outputs that the algorithm may give, whatever computes them. Each law is a
//! contract, and the functions do nothing.
ghost use Rattle.canon_core.specs.Outputs.{SharedOutput, UnjoinedGivesTwoOutputs};

/// Two datasets with an allowed output in common are isomorphic, by a map that carries the one
/// list to the other.
pub fn shared_output()
    ensures { SharedOutput }
{}

/// Where two tied results may be issued for first and are not joined, two outputs are allowed that
/// differ.
pub fn unjoined_gives_two_outputs()
    ensures { UnjoinedGivesTwoOutputs }
{}
