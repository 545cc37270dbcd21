//! The longer one of two tokens.

ghost use Rattle.trig_lexer.specs.Longer.{IsLonger};

use crate::found::Found;

// The longer one of two tokens that were found at the front of one text.
pub(crate) fn longer<'a>(one: Option<Found<'a>>, other: Option<Found<'a>>) -> Option<Found<'a>>
    ensures { IsLonger one.entry other.entry result }
{
    match (one, other) {
        (None, other) => other,
        (Some(one), None) => Some(one),
        (Some(one), Some(other)) => {
            if other.rest.len() < one.rest.len() {
                Some(other)
            } else {
                Some(one)
            }
        }
    }
}
