//! References against a base (RFC 3986, section 5.4), and texts with a scheme.

use iri_resolve::{has_scheme, resolve};
use std::test::Fail;

const BASE: &str = "http://a/b/c/d;p?q";

#[test]
fn references_resolve_against_a_base(rt: HostRuntime) -> Result<(), Fail> {
    let table = [
        ("g:h", "g:h"),
        ("g", "http://a/b/c/g"),
        ("./g/.", "http://a/b/c/g/"),
        ("//g", "http://g"),
        ("?y", "http://a/b/c/d;p?y"),
        ("#s", "http://a/b/c/d;p?q#s"),
        (";x", "http://a/b/c/;x"),
        ("", "http://a/b/c/d;p?q"),
        ("../g", "http://a/b/g"),
        ("../../../g", "http://a/g"),
        ("/./g", "http://a/g"),
    ];
    assert!(rt; has_scheme(BASE));
    for (reference, wanted) in table {
        let iri = resolve(rt.alloc(), BASE, reference)?;
        assert_eq!(rt; iri.as_str(), wanted, "{reference}");
    }
    Ok(())
}

#[test]
fn a_scheme_begins_with_a_letter(rt: HostRuntime) {
    assert!(rt; has_scheme("a+b:"));
    assert!(rt; !has_scheme("1a:"));
    assert!(rt; !has_scheme(""));
}
