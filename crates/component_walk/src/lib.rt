//! The components of a graph of which some triples may have gone: walks through them, and what their
//! triples ask of the images of their nodes.
#![tactic(auto)]

pub use empty::{no_marks, no_places};
pub use left::{is_left, node_of, places_left, quad_in};
pub use marking::mark_all;
pub use named::named_quad;
pub use places::{NONE, clear_places, set_places};
pub use rows::rows_of;
pub use terms::terms_of;
pub use walk::walk_from;

mod empty;
mod left;
mod marking;
mod named;
mod places;
mod rows;
mod terms;
mod walk;
