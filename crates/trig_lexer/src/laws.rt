//! What holds of the tokens of a text, whatever finds them.
ghost use Rattle.std.specs.Prelude.{◌≡◌, ℕ, Bool};
ghost use Rattle.rdf_terms.specs.Lists.{Text};
ghost use Rattle.trig_lexer.specs.Tokens.{IsTokenStart, IsTokenAt, HasNoTokenAt};
ghost use Rattle.trig_lexer.specs.declared.token.Token.{Token};

/// Behind a place of a text one token is next: its kind, where it begins and where it ends.
pub fn token_is_determined()
    ensures { (after_string : Bool) (text : Text) (place : ℕ) (one other : Token) → IsTokenAt after_string text place one → IsTokenAt after_string text place other → one ≡ other }
{}

/// Where a token is next, it is not so that none fits.
pub fn token_fits_or_none_does()
    ensures { (after_string : Bool) (text : Text) (place : ℕ) (token : Token) → IsTokenAt after_string text place token → ¬ (HasNoTokenAt after_string text place) }
{}

/// Behind a place of a text there is one place where the next token should begin.
pub fn token_start_is_determined()
    ensures { (text : Text) (place one other : ℕ) → IsTokenStart text place one → IsTokenStart text place other → one ≡ other }
{}
