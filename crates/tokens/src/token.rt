ghost use Rattle.std.specs.Prelude.{◌≡◌};
ghost use Rattle.tokens.specs.Tokens.{in_class};

use reader::place::Place;

// A part of a line, and where it stands. The bytes of a word and of a number are the sheet's own.
#[derive(Clone, Copy)]
pub enum Token<'a> {
    Open { place: Place },
    Close { place: Place },
    Word { text: &'a [u8], place: Place },
    Number { digits: &'a [u8], place: Place },
    // The end of the line.
    End,
}

// What a word consists of, and what a number.
#[derive(Clone, Copy)]
pub(crate) enum Class {
    Letters,
    Digits,
}

impl Class {
    pub(crate) fn has(self, byte: u8) -> bool
        ensures { result ≡ in_class self byte }
    {
        match self {
            Class::Letters => byte.is_ascii_lowercase(),
            Class::Digits => byte.is_ascii_digit(),
        }
    }
}
