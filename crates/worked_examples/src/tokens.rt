//! The tokens of TriG (RDF 1.1 TriG, section 4.5), each at the front of a text.

use std::test::Fail;
use trig_lexer::{Kind, Token, next_token};

fn first_token(text: &str, after_string: bool) -> Option<Token> {
    next_token(text, 0, after_string)
}

fn token(kind: Kind, end: usize) -> Option<Token> {
    Some(Token {
        kind,
        start: 0,
        end,
    })
}

#[test]
fn the_longest_token_at_the_front(rt: HostRuntime) -> Result<(), Fail> {
    let table = [
        ("1.e5 .", false, token(Kind::Double, 4)),
        ("1.", false, token(Kind::Integer, 1)),
        ("\"\"\"\"\"\"", false, token(Kind::Quoted, 6)),
        ("@prefix", false, token(Kind::AtPrefix, 7)),
        ("@prefix", true, token(Kind::LangTag, 7)),
        ("@prefixes", false, token(Kind::LangTag, 9)),
        ("GRAPH:x", false, token(Kind::PnameLn, 7)),
        ("ex:a.b.", false, token(Kind::PnameLn, 6)),
        ("", false, token(Kind::End, 0)),
        ("\"a", false, None),
    ];
    for (text, after_string, found) in table {
        assert_eq!(rt; first_token(text, after_string), found, "at {text:?}");
    }
    Ok(())
}
