//! What the answer of a call implies. The law is a contract, and the function does nothing.

ghost use Rattle.rdfc_c.specs.Headline.{LentHeadline};

/// The headline, over bytes of the caller: where a call of `canon` has status 0, the bytes that it wrote are the only form
/// that the standard allows for what the bytes of the file state; with status 3 they are a form, and a tie is not joined.
pub fn headline()
    ensures { LentHeadline }
{}
