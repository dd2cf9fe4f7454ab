// A quantised coefficient.
ghost use Rattle.std.specs.Prelude.{◌≡◌, ◌<◌, ◌^◌};
ghost use Rattle.dz_quantiser.specs.Coefficient.{zero_coefficient, word_of};

use std::marker::Model;

/// A quantised coefficient in four bytes: the magnitude of its index, below `2^31`, and its sign.
///
/// Contracts see the two as a record. The highest bit of the word is 1 where the sign is minus.
#[derive(Clone, Copy, Debug, PartialEq, Eq)]
pub struct Coef {
    word: u32,
}

impl Model for Coef {
    ghost use Rattle.std.specs.Prelude.{◌<◌, ◌^◌};
    ghost use Rattle.dz_quantiser.specs.Coefficient.{Coefficient, word_of, of_word};

    ghost Value = { Coefficient };

    ghost view = { λ c. of_word c.word };

    ghost invariant = { λ c. c.word < 2 ^ 32 };

    ghost inverse = { λ c. record { word = word_of c } };
}

impl Coef {
    /// The coefficient of this magnitude and sign.
    #[inline]
    pub fn new(magnitude: u32, negative: bool) -> Coef
        requires { magnitude < 2 ^ 31 }
        ensures magnitude { result.magnitude ≡ magnitude }
        ensures negative { result.negative ≡ negative }
    {
        Coef {
            word: magnitude + (u32::from(negative) << 31),
        }
    }

    /// The index 0, whose sign is plus.
    #[inline]
    pub fn zero() -> Coef
        ensures { result ≡ zero_coefficient }
    {
        Coef { word: 0 }
    }

    /// The magnitude of the index.
    #[inline]
    pub fn magnitude(self) -> u32
        ensures value { result ≡ self.magnitude }
        ensures below { result < 2 ^ 31 }
    {
        self.word & 0x7FFF_FFFF
    }

    /// Whether the sign is minus.
    #[inline]
    pub fn is_negative(self) -> bool
        ensures { result ≡ self.negative }
    {
        self.word >> 31 == 1
    }

    /// Both in one word: the magnitude, and bit 31 where the sign is minus.
    #[inline]
    pub fn word(self) -> u32
        ensures { result ≡ word_of self }
    {
        self.word
    }
}
