//! Documents whose blank nodes have one first-degree hash, which more than one test reads.

/// Two nodes that point at each other.
pub const PAIR: &str = "_:a <e:p> _:b .
_:b <e:p> _:a .
";

/// Each of five nodes points at each other one.
pub const FIVE: &str = "_:a <e:p> _:b .
_:a <e:p> _:c .
_:a <e:p> _:d .
_:a <e:p> _:e .
_:b <e:p> _:a .
_:b <e:p> _:c .
_:b <e:p> _:d .
_:b <e:p> _:e .
_:c <e:p> _:a .
_:c <e:p> _:b .
_:c <e:p> _:d .
_:c <e:p> _:e .
_:d <e:p> _:a .
_:d <e:p> _:b .
_:d <e:p> _:c .
_:d <e:p> _:e .
_:e <e:p> _:a .
_:e <e:p> _:b .
_:e <e:p> _:c .
_:e <e:p> _:d .
";

/// Three quads, of which the standard allows two canonical forms.
pub const TURNED: &str = "_:a <e:p> _:b _:c .
_:b <e:p> _:c _:a .
_:c <e:p> _:a _:b .
";

/// A ring of six nodes, whose run has 108 units of work.
pub const RING: &str = "_:a <e:p> _:b .
_:b <e:p> _:c .
_:c <e:p> _:d .
_:d <e:p> _:e .
_:e <e:p> _:f .
_:f <e:p> _:a .
";

/// Two rings of three nodes, whose run has 54 units of work.
pub const TWO_RINGS: &str = "_:a <e:p> _:b .
_:b <e:p> _:c .
_:c <e:p> _:a .
_:d <e:p> _:e .
_:e <e:p> _:f .
_:f <e:p> _:d .
";
