//! What a text says.
ghost use Rattle.std.specs.Prelude.{IfSome, IfOk, IfErr};
ghost use Rattle.std.specs.Option.{option_copied};
ghost use Rattle.trig_builder.specs.Building.{IsWhole};
ghost use Rattle.trig_reader.specs.Document.{IsCauseOf};
ghost use Rattle.trig_reader.specs.Reading.{IsDraftOf};

use crate::TrigFault;
use crate::reading::Reading;
use rdf_terms::Draft;
use std::alloc::Global;
use std::hash::RandomState;

// What the text says, where this is the base.
pub(crate) fn read_text(
    alloc: Global,
    keys: RandomState,
    text: &str,
    base: Option<&str>,
) -> Result<Draft, TrigFault>
    requires { IfSome base (λ b. IsWhole b.now) }
    ensures ok { IfOk result (IsDraftOf text.now (option_copied base.entry)) }
    ensures err { IfErr result (IsCauseOf text.now (option_copied base.entry)) }
{
    let mut reading = Reading::new(alloc, keys, base)?;
    reading.take_all(alloc, text)?;
    reading.finish(text)
}
