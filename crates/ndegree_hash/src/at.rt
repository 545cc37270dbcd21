//! The places of a call.

// Where the running call is.
#[derive(Clone, Copy, Debug)]
pub(crate) enum At {
    // Between two groups.
    Group,
    // Before the permutation that stands in the frame.
    Begin,
    // In the recursion list.
    Recursion,
    // At the end of a permutation.
    Ended,
    // Behind a permutation, with what was chosen.
    Between,
    // Behind the last permutation of the group.
    Close,
    // It makes the call of this node.
    Call(u32),
    // At its end: its hash is that of the data.
    Return,
}
