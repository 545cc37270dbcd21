//! Texts that many terms have, as constants.
ghost use Rattle.std.specs.Prelude.{◌≡◌, IfSome};

use crate::xsd;

// The same text as a constant, where it is the IRI of a datatype that most literals have.
// Out of line, so that the copy of a short text stays small.
#[inline(never)]
pub(crate) fn known_text(text: &str) -> Option<&'static str>
    ensures { IfSome result (λ known. known.now ≡ text.now) }
{
    match text {
        xsd::STRING => Some(xsd::STRING),
        xsd::BOOLEAN => Some(xsd::BOOLEAN),
        xsd::DECIMAL => Some(xsd::DECIMAL),
        xsd::INTEGER => Some(xsd::INTEGER),
        xsd::DOUBLE => Some(xsd::DOUBLE),
        xsd::DATE => Some(xsd::DATE),
        xsd::TIME => Some(xsd::TIME),
        xsd::DATE_TIME => Some(xsd::DATE_TIME),
        _ => None,
    }
}
