//! Decimal numerals that take no memory.
ghost use Rattle.std.specs.Prelude.{◌≡◌};
ghost use Rattle.rdf_terms.specs.Numeral.{numeral};

use std::marker::Model;

// The numeral of a number, which takes no memory.
#[derive(Drop)]
pub(crate) struct Decimal {
    digits: [u8; 20],
    start: usize,
}

impl Model for Decimal {
    ghost use Rattle.std.specs.Prelude.{◌≤◌, drop};
    ghost use Rattle.rdf_terms.specs.Lists.{Text};

    ghost Value = { Text };

    ghost view = { λ d. drop d.start d.digits };

    ghost invariant = { λ d. d.start ≤ 20 };
}

impl Decimal {
    pub(crate) fn of(number: u64) -> Self
        ensures { result ≡ numeral number }
    {
        let mut digits = [b'0'; 20];
        let mut start = 19;
        let mut rest = number;
        while rest > 9 {
            digits[start] = b'0' + (rest % 10) as u8;
            rest /= 10;
            start -= 1;
        }
        digits[start] = b'0' + rest as u8;
        Decimal { digits, start }
    }

    pub(crate) fn as_bytes(&self) -> &[u8]
        ensures { result.now ≡ self.now }
    {
        &self.digits[self.start..]
    }
}
