//! What an issuer answers: places, copies, marks.
use id_issuer::Issuer;
use rdf_terms::Prefix;
use std::test::Fail;

#[test]
fn a_node_keeps_its_identifier(rt: HostRuntime) -> Result<(), Fail> {
    let mut issuer = Issuer::new(rt.alloc(), Prefix::Temporary);
    assert_eq!(rt; issuer.issue(7)?, 0);
    assert_eq!(rt; issuer.issue(3)?, 1);
    assert_eq!(rt; issuer.issue(7)?, 0);
    assert_eq!(rt; issuer.id_of(3), Some(1));
    assert_eq!(rt; issuer.id_of(5), None);
    let copy = issuer.copy()?;
    assert_eq!(rt; copy.list(), [7, 3].as_slice());
    assert_eq!(rt; copy.prefix(), Prefix::Temporary);
    Ok(())
}

#[test]
fn undo_goes_back_to_the_mark(rt: HostRuntime) -> Result<(), Fail> {
    let mut issuer = Issuer::new(rt.alloc(), Prefix::Canonical);
    issuer.issue(7)?;
    let mark = issuer.mark();
    issuer.issue(3)?;
    issuer.issue(9)?;
    issuer.undo(mark);
    assert_eq!(rt; issuer.list(), [7].as_slice());
    assert_eq!(rt; issuer.id_of(3), None);
    assert_eq!(rt; issuer.issue(9)?, 1);
    Ok(())
}
