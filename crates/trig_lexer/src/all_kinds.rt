//! The longest token of any kind.

ghost use Rattle.trig_lexer.specs.Longer.{Finds};
ghost use Rattle.trig_lexer.specs.Groups.{GroupShapes};

use crate::anon::anon;
use crate::at_words::at_word;
use crate::found::Found;
use crate::longer::longer;
use crate::marks::mark;
use crate::name::name;
use crate::number::number;
use crate::quoted::quoted;
use crate::terminal::{iri, label};
use crate::words::word;

// The longest token of any kind at the front: the longest of those that the groups of kinds find.
// Most groups find none at their first character.
pub(crate) fn token(text: &str, after_string: bool) -> Option<Found<'_>>
    ensures { Finds (GroupShapes after_string) text.now result }
{
    let named = longer(quoted(text), name(text));
    let numbered = longer(number(text), named);
    let anonymous = longer(anon(text), numbered);
    let labelled = longer(label(text), anonymous);
    let referred = longer(iri(text), labelled);
    let tagged = longer(at_word(text, after_string), referred);
    let worded = longer(word(text), tagged);
    longer(mark(text), worded)
}
