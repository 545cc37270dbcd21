//! What holds of canonical lines and texts whatever computes them.
ghost use Rattle.std.specs.Prelude.{◌≡◌, ℕ, List, IsSome};
ghost use Rattle.rdf_terms.specs.Terms.{Statement, IsValidStatement};
ghost use Rattle.rdf_terms.specs.Dataset.{Dataset, IsValid};
ghost use Rattle.rdf_terms.specs.CanonicalForm.{Naming, canonical_line, canonical_nquads, issued_name, issued_names};
ghost use Rattle.rdf_terms.specs.declared.term.Prefix.{Prefix};
ghost use Rattle.canonical_writer.specs.Names.{numbered_name};
ghost use Rattle.canonical_writer.specs.Determined.{HasPlainNames, Agree, ListsNodes, CarriesLists};

/// The names of different nodes of a list differ.
pub fn names_of_list_differ()
    ensures { (prefix : Prefix) (list : List ℕ) (m n : ℕ) → IsSome (issued_name prefix list m) → issued_name prefix list m ≡ issued_name prefix list n → m ≡ n }
{}

/// The names of different numbers differ.
pub fn names_of_numbers_differ()
    ensures { (m n : ℕ) → numbered_name m ≡ numbered_name n → m ≡ n }
{}

/// Two valid quads of one canonical line are the same, but for the numbers of nodes of one name.
pub fn line_determines_statement()
    ensures { (ν ν' : Naming) (nodes nodes' : ℕ) (st su : Statement) → HasPlainNames nodes ν → HasPlainNames nodes' ν' → IsValidStatement nodes st → IsValidStatement nodes' su → canonical_line ν st ≡ canonical_line ν' su → Agree ν ν' st su }
{}

/// Two valid datasets of one canonical text are isomorphic, by the map of their nodes that takes
/// each to that of the same name.
pub fn text_determines_dataset()
    ensures { (D E : Dataset) (c d : List ℕ) → IsValid D → IsValid E → ListsNodes D.nodes c → ListsNodes E.nodes d → canonical_nquads D (issued_names Prefix.Canonical c) ≡ canonical_nquads E (issued_names Prefix.Canonical d) → CarriesLists D E c d }
{}
