//! First-degree hashes (RDF Dataset Canonicalization, section 4.6): the standard's example of two
//! nodes with different hashes.

ghost use Rattle.std.specs.Prelude.{◌≤◌, length};

use canon_model::{HexHash, Profile};
use dataset_index::Dataset;
use first_degree::FirstTable;
use nquads_reader::read_nquads;
use std::alloc::Global;
use std::hash::RandomState;
use std::test::Fail;

const UNIQUE_HASHES: &str = "<http://example.com/#p> <http://example.com/#q> _:e0 .
<http://example.com/#p> <http://example.com/#r> _:e1 .
_:e0 <http://example.com/#s> <http://example.com/#u> .
_:e1 <http://example.com/#t> <http://example.com/#u> .
";

// The table of a document, if it is read.
fn table_of(alloc: Global, keys: RandomState, text: &str) -> Result<Option<FirstTable>, Fail>
    requires { length text.now ≤ 1000 }
{
    let Ok(parsed) = read_nquads(alloc, keys, text.as_bytes()) else {
        return Ok(None);
    };
    let dataset = Dataset::build(alloc, parsed)?;
    Ok(Some(FirstTable::build(alloc, &dataset, Profile::DEFAULT)?))
}

fn is_written(hash: &HexHash, text: &str) -> bool {
    hash.as_bytes() == text.as_bytes()
}

#[test]
fn nodes_with_different_quads_have_the_standards_hashes(rt: HostRuntime) -> Result<(), Fail> {
    let table = table_of(rt.alloc(), RandomState::new(&rt)?, UNIQUE_HASHES)?;
    let hashes = match &table {
        Some(table) => table.all(),
        None => &[],
    };
    let expected = [
        "21d1dd5ba21f3dee9d76c0c00c260fa6f5d5d65315099e553026f4828d0dc77a",
        "6fa0b9bdb376852b5743ff39ca4cbf7ea14d34966b2828478fbf222e7c764473",
    ];
    assert_eq!(rt; hashes.len(), expected.len());
    for (hash, text) in hashes.iter().zip(expected.iter()) {
        assert!(rt; is_written(hash, text));
    }
    Ok(())
}
