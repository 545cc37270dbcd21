//! The datasets of the examples.
use dataset_index::Dataset;
use nquads_reader::read_nquads;
use std::alloc::Global;
use std::hash::RandomState;
use std::test::Fail;

// Two nodes that point at each other.
pub(crate) const TWO_NODES: &str = "_:a <http://e/p> _:b .
_:b <http://e/p> _:a .
";

// Two chains of five nodes, alike.
pub(crate) const TWO_CHAINS: &str = "_:a0 <e:n> \"0\" .
_:a1 <e:n> \"1\" .
_:a2 <e:n> \"2\" .
_:a3 <e:n> \"3\" .
_:a4 <e:n> \"4\" .
_:a0 <e:next> _:a1 .
_:a1 <e:next> _:a2 .
_:a2 <e:next> _:a3 .
_:a3 <e:next> _:a4 .
_:b0 <e:n> \"0\" .
_:b1 <e:n> \"1\" .
_:b2 <e:n> \"2\" .
_:b3 <e:n> \"3\" .
_:b4 <e:n> \"4\" .
_:b0 <e:next> _:b1 .
_:b1 <e:next> _:b2 .
_:b2 <e:next> _:b3 .
_:b3 <e:next> _:b4 .
";

// Two subjects, two objects and two graph names, in four quads: a tie of the run is not joined.
pub(crate) const FOUR_QUADS: &str = "_:s0 <e:p> _:o0 _:g0 .
_:s0 <e:p> _:o1 _:g1 .
_:s1 <e:p> _:o0 _:g1 .
_:s1 <e:p> _:o1 _:g0 .
";

// The Latin square of order 3: rows, columns and entries as subjects, objects and graph names.
pub(crate) const LATIN_SQUARE: &str = "_:r0 <e:p> _:c0 _:e0 .
_:r0 <e:p> _:c1 _:e1 .
_:r0 <e:p> _:c2 _:e2 .
_:r1 <e:p> _:c0 _:e1 .
_:r1 <e:p> _:c1 _:e2 .
_:r1 <e:p> _:c2 _:e0 .
_:r2 <e:p> _:c0 _:e2 .
_:r2 <e:p> _:c1 _:e0 .
_:r2 <e:p> _:c2 _:e1 .
";

pub(crate) fn dataset_of(alloc: Global, keys: RandomState, text: &str) -> Result<Dataset, Fail> {
    if text.len() > 1000 {
        return Err(Fail::from("a text is too long for these examples"));
    }
    match read_nquads(alloc, keys, text.as_bytes()) {
        Ok(parsed) => Ok(Dataset::build(alloc, parsed)?),
        Err(_) => Err(Fail::from("a text of these examples is not read")),
    }
}
