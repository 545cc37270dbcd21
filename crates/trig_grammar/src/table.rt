//! The table of the grammar, in two halves: the productions that it predicts, by number (RDF 1.1
//! TriG, section 4.5). A row for each part, in the order of `Nonterminal`, and a column for each kind
//! of token, in the order of `Kind`.

// A row by its cells, each a production's number, or `-` where none is predicted.
macro_rules! row {
    ($($cell:tt)*) => {
        [$(cell!($cell)),*]
    };
}

macro_rules! cell {
    (-) => {
        None
    };
    ($number:literal) => {
        Some($number)
    };
}

// The first 17 rows, `Document` to `Triples`.
pub(crate) static UPPER: [[Option<u8>; 29]; 17] = [
    // Document
    row![ 1  1  1  1  1  -  -  -  -  -  -  -  1  -  1  -  1  -  1  1  1  1  1  -  -  -  -  -  0],
    // Statement
    row![ 2  2  2  2  3  -  -  -  -  -  -  -  3  -  3  -  3  -  3  3  3  3  3  -  -  -  -  -  -],
    // Block
    row![ -  -  -  -  7  -  -  -  -  -  -  -  5  -  6  -  6  -  4  4  4  4  4  -  -  -  -  -  -],
    // TriplesOrGraph
    row![ -  -  -  -  -  -  -  -  -  -  -  -  -  -  -  -  -  -  8  8  8  8  8  -  -  -  -  -  -],
    // AfterLabel
    row![ -  -  -  -  - 10  -  -  -  -  -  -  9  -  -  -  -  - 10 10 10  -  -  -  -  -  -  -  -],
    // Triples2
    row![ -  -  -  -  -  -  -  -  -  -  -  -  -  - 11  - 12  -  -  -  -  -  -  -  -  -  -  -  -],
    // WrappedGraph
    row![ -  -  -  -  -  -  -  -  -  -  -  - 13  -  -  -  -  -  -  -  -  -  -  -  -  -  -  -  -],
    // MaybeTriples
    row![ -  -  -  -  -  -  -  -  -  -  -  -  - 14 15  - 15  - 15 15 15 15 15  -  -  -  -  -  -],
    // TriplesBlock
    row![ -  -  -  -  -  -  -  -  -  -  -  -  -  - 16  - 16  - 16 16 16 16 16  -  -  -  -  -  -],
    // MoreTriples
    row![ -  -  -  -  -  -  -  - 18  -  -  -  - 17  -  -  -  -  -  -  -  -  -  -  -  -  -  -  -],
    // LabelOrSubject
    row![ -  -  -  -  -  -  -  -  -  -  -  -  -  -  -  -  -  - 19 19 19 20 20  -  -  -  -  -  -],
    // Directive
    row![21 22 23 24  -  -  -  -  -  -  -  -  -  -  -  -  -  -  -  -  -  -  -  -  -  -  -  -  -],
    // PrefixId
    row![25  -  -  -  -  -  -  -  -  -  -  -  -  -  -  -  -  -  -  -  -  -  -  -  -  -  -  -  -],
    // Base
    row![ - 26  -  -  -  -  -  -  -  -  -  -  -  -  -  -  -  -  -  -  -  -  -  -  -  -  -  -  -],
    // SparqlPrefix
    row![ -  - 27  -  -  -  -  -  -  -  -  -  -  -  -  -  -  -  -  -  -  -  -  -  -  -  -  -  -],
    // SparqlBase
    row![ -  -  - 28  -  -  -  -  -  -  -  -  -  -  -  -  -  -  -  -  -  -  -  -  -  -  -  -  -],
    // Triples
    row![ -  -  -  -  -  -  -  -  -  -  -  -  -  - 30  - 29  - 29 29 29 29 29  -  -  -  -  -  -],
];

// The other 17 rows.
pub(crate) static LOWER: [[Option<u8>; 29]; 17] = [
    // MaybePredicates
    row![ -  -  -  -  - 32  -  - 31  -  -  -  - 31  -  -  -  - 32 32 32  -  -  -  -  -  -  -  -],
    // Predicates
    row![ -  -  -  -  - 33  -  -  -  -  -  -  -  -  -  -  -  - 33 33 33  -  -  -  -  -  -  -  -],
    // MorePredicates
    row![ -  -  -  -  -  -  -  - 34 35  -  -  - 34  - 34  -  -  -  -  -  -  -  -  -  -  -  -  -],
    // MaybePredicate
    row![ -  -  -  -  - 37  -  - 36 36  -  -  - 36  - 36  -  - 37 37 37  -  -  -  -  -  -  -  -],
    // Objects
    row![ -  -  -  -  -  - 38 38  -  -  -  -  -  - 38  - 38  - 38 38 38 38 38 38 38 38 38  -  -],
    // MoreObjects
    row![ -  -  -  -  -  -  -  - 39 39 40  -  - 39  - 39  -  -  -  -  -  -  -  -  -  -  -  -  -],
    // Verb
    row![ -  -  -  -  - 42  -  -  -  -  -  -  -  -  -  -  -  - 41 41 41  -  -  -  -  -  -  -  -],
    // Subject
    row![ -  -  -  -  -  -  -  -  -  -  -  -  -  -  -  - 45  - 43 43 43 44 44  -  -  -  -  -  -],
    // Object
    row![ -  -  -  -  -  - 50 50  -  -  -  -  -  - 49  - 48  - 46 46 46 47 47 50 50 50 50  -  -],
    // Literal
    row![ -  -  -  -  -  - 55 56  -  -  -  -  -  -  -  -  -  -  -  -  -  -  - 52 53 54 51  -  -],
    // RdfLiteral
    row![ -  -  -  -  -  -  -  -  -  -  -  -  -  -  -  -  -  -  -  -  -  -  -  -  -  - 57  -  -],
    // Suffix
    row![ -  -  -  -  -  - 58 58 58 58 58 60  - 58 58 58 58 58 58 58 58 58 58 58 58 58 58 59  -],
    // PropertyList
    row![ -  -  -  -  -  -  -  -  -  -  -  -  -  - 61  -  -  -  -  -  -  -  -  -  -  -  -  -  -],
    // Collection
    row![ -  -  -  -  -  -  -  -  -  -  -  -  -  -  -  - 62  -  -  -  -  -  -  -  -  -  -  -  -],
    // Items
    row![ -  -  -  -  -  - 64 64  -  -  -  -  -  - 64  - 64 63 64 64 64 64 64 64 64 64 64  -  -],
    // Iri
    row![ -  -  -  -  -  -  -  -  -  -  -  -  -  -  -  -  -  - 65 67 66  -  -  -  -  -  -  -  -],
    // BlankNode
    row![ -  -  -  -  -  -  -  -  -  -  -  -  -  -  -  -  -  -  -  -  - 68 69  -  -  -  -  -  -],
];
