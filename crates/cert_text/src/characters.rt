// Characters of a name in UTF-8 (Unicode, table 3-7), byte by byte.
ghost use Rattle.std.specs.Prelude.{◌≡◌, ◌↔◌, IsTrue};
ghost use Rattle.cert_text.specs.Characters.{between, begun, after};

/// Where a character of a name may go on: how many bytes of it are left, and the range of the next
/// one. With none left, any first byte of a character may come.
#[derive(Clone, Copy, Debug)]
pub struct Character {
    left: u8,
    least: u8,
    most: u8,
}

impl Character {
    /// Between two characters.
    pub fn between() -> Character
        ensures { result ≡ between }
    {
        Character {
            left: 0,
            least: 0,
            most: 255,
        }
    }

    /// Whether no character has begun.
    pub fn is_between(self) -> bool
        ensures { IsTrue result ↔ self.left ≡ 0 }
    {
        self.left == 0
    }

    /// The rest of a character after its first byte; None for a byte that begins none.
    fn begun(first: u8) -> Option<Character>
        ensures { result ≡ begun first }
    {
        let (left, least, most) = match first {
            0..=0x7F => return Some(Character::between()),
            0xC2..=0xDF => (1, 0x80, 0xBF),
            0xE0 => (2, 0xA0, 0xBF),
            0xED => (2, 0x80, 0x9F),
            0xE1..=0xEF => (2, 0x80, 0xBF),
            0xF0 => (3, 0x90, 0xBF),
            0xF1..=0xF3 => (3, 0x80, 0xBF),
            0xF4 => (3, 0x80, 0x8F),
            _ => return None,
        };
        Some(Character { left, least, most })
    }

    /// The rest after one byte more; None where that byte can't come.
    pub fn after(self, byte: u8) -> Option<Character>
        ensures { result ≡ after self byte }
    {
        if self.left == 0 {
            return Character::begun(byte);
        }
        if byte < self.least || byte > self.most {
            return None;
        }
        if self.left == 1 {
            return Some(Character::between());
        }
        Some(Character {
            left: self.left - 1,
            least: 0x80,
            most: 0xBF,
        })
    }
}
