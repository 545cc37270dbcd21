//! What stands at the front of a text.

ghost use Rattle.std.specs.Prelude.{◌≡◌, ◌≢◌, ◌<◌, ℕ, List, [], ◌∷◌, ◌++◌, encode_utf8, IfSome, IfNone};

/// What follows the mark at the front, where it stands there.
#[inline]
pub fn after(text: &str, mark: char) -> Option<&str>
    requires { mark < 128 }
    ensures found { IfSome result (λ rest. text.now ≡ mark ∷ rest.now) }
    ensures none { IfNone result ((rest : List ℕ) → text.now ≢ mark ∷ rest) }
{
    match text.as_bytes().first() {
        Some(first) if *first == mark as u8 => Some(&text[1..]),
        _ => None,
    }
}

/// The first character, and what follows it.
#[inline]
pub fn first_char(text: &str) -> Option<(char, &str)>
    ensures found { IfSome result (λ x. text.now ≡ encode_utf8 x.0 ++ x.1.now) }
    ensures none { IfNone result (text.now ≡ []) }
{
    let mut chars = text.chars();
    let first = chars.next()?;
    Some((first, chars.as_str()))
}

/// How many bytes at the front of a text pass a test.
#[macro_export]
macro_rules! front_len {
    ($text:expr, $passes:expr) => {
        $text.as_bytes().iter().take_while($passes).count()
    };
}
