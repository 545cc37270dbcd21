//! A token and what follows it.

use crate::Kind;

// A token at the front of a text: its kind, and what follows it.
#[derive(Clone, Copy, Debug)]
pub(crate) struct Found<'a> {
    pub(crate) kind: Kind,
    pub(crate) rest: &'a str,
}
