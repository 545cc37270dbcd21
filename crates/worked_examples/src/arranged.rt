//! The arrangements of small bags.
use arrangements::Arrangement;
use std::test::Fail;

#[test]
fn arrangements_of_two_equal_nodes_and_one_more(rt: HostRuntime) -> Result<(), Fail> {
    let mut arrangement = Arrangement::first(rt.alloc(), [2, 1, 1].as_slice())?;
    let table = [
        ([1, 1, 2], true),
        ([1, 2, 1], true),
        ([2, 1, 1], false),
        ([2, 1, 1], false),
    ];
    for (nodes, goes_on) in table {
        assert_eq!(rt; arrangement.nodes(), nodes.as_slice());
        assert_eq!(rt; arrangement.next(), goes_on);
    }
    Ok(())
}

#[test]
fn the_empty_bag_has_one_arrangement(rt: HostRuntime) -> Result<(), Fail> {
    let mut arrangement = Arrangement::first(rt.alloc(), [].as_slice())?;
    assert!(rt; !arrangement.next());
    assert_eq!(rt; arrangement.nodes().len(), 0);
    Ok(())
}
