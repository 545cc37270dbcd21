//! Bytes that are put whole.
ghost use Rattle.outside.specs.Faults.{HasCause};
ghost use Rattle.rdfc_cli.specs.Puts.{Puts};

use outside::{Failed, Sink};

/// Puts all the bytes, each time all that were not taken yet. The first call that fails ends it. Takes no memory.
pub fn put_all<K: Sink>(out: &mut K, bytes: &[u8]) -> Result<(), Failed>
    ensures bytes { Puts (K.taken out.old) (K.taken out.new) result bytes.now }
    ensures cause { HasCause (K.faults out.old) (K.faults out.new) result }
{
    let mut rest = bytes;
    while !rest.is_empty() {
        let count = out.put(rest)?;
        rest = &rest[count..];
    }
    Ok(())
}
