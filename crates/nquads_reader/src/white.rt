//! White space and comments.
ghost use Rattle.std.specs.Prelude.{◌≡◌, ◌≤◌, ◌↔◌, IsTrue, length};
ghost use Rattle.std.specs.List.{prefix_len};
ghost use Rattle.nquads_reader.specs.Grammar.{is_space_or_tab, IsWhiteThen, IsOptionalComment};

fn is_space_or_tab(byte: u8) -> bool
    ensures { result ≡ is_space_or_tab byte }
{
    byte == b' ' || byte == b'\t'
}

fn white_len(text: &[u8]) -> usize
    ensures is { result ≡ prefix_len is_space_or_tab text.now }
    ensures within { result ≤ length text.now }
{
    text.iter().take_while(|b| is_space_or_tab(**b)).count()
}

// What follows the white space at the front.
pub(crate) fn after_white(text: &str) -> &str
    ensures { IsWhiteThen text.now result.now }
{
    &text[white_len(text.as_bytes())..]
}

// Whether nothing is left but a comment.
pub(crate) fn is_optional_comment(text: &str) -> bool
    ensures { IsTrue result ↔ IsOptionalComment text.now }
{
    match text.as_bytes().first() {
        None => true,
        Some(first) => *first == b'#',
    }
}
