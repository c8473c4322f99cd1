// Which bytes a plan may hold, and where.
ghost use Rattle.std.specs.Prelude.{◌≡◌, ℕ, Bool, ◌==◌};
ghost use Rattle.text.specs.Text.{belongs, every, first_from};

// A class of bytes. Three values that a contract can name, and no closure, of which a contract could only say its calls.
#[derive(Clone, Copy)]
pub enum Class {
    // 0 to 9
    Digit,
    // the bytes of a name: A to Z and 0 to 9
    Letter,
    // the bytes of a line: those of a name, comma and minus
    Legal,
}

impl Class {
    // Whether the byte is of the class.
    fn has(self, b: u8) -> bool
        ensures { result ≡ belongs self b }
    {
        match self {
            Class::Digit => matches!(b, b'0'..=b'9'),
            Class::Letter => matches!(b, b'A'..=b'Z' | b'0'..=b'9'),
            Class::Legal => matches!(b, b'A'..=b'Z' | b'0'..=b'9' | b',' | b'-'),
        }
    }

    // Whether every byte is of the class.
    pub fn has_all(self, bytes: &[u8]) -> bool
        ensures { result ≡ every (belongs self) bytes.now }
    {
        bytes.iter().all(|b| self.has(*b))
    }
}

// Where the first byte of this value stands.
pub(crate) fn first_of(bytes: &[u8], byte: u8) -> Option<usize>
    ensures { result ≡ first_from 0 (λ b. b == byte) bytes.now }
{
    bytes.iter().position(|b| *b == byte)
}
