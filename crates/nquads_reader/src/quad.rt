//! A quad as its line states it, over labels.
use crate::stated_literal::StatedLiteral;
use terminals::SpelledText;

// What a line states: an IRI, or a blank node by its label.
#[derive(Drop)]
pub(crate) enum Resource<'a> {
    Iri(SpelledText<'a>),
    Label(SpelledText<'a>),
}

#[derive(Drop)]
pub(crate) enum Object<'a> {
    Resource(Resource<'a>),
    Literal(StatedLiteral<'a>),
}

// A quad as its line states it.
#[derive(Drop)]
pub(crate) struct StatedQuad<'a> {
    pub(crate) subject: Resource<'a>,
    pub(crate) predicate: SpelledText<'a>,
    pub(crate) object: Object<'a>,
    pub(crate) graph_name: Option<Resource<'a>>,
}
