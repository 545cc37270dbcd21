//! That a quad mentions a node.

// The quad at a place mentions a node.
#[derive(Clone, Copy, Debug)]
pub(crate) struct Mention {
    pub(crate) node: u32,
    pub(crate) place: u32,
}
