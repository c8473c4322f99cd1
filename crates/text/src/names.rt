// Names.
ghost use Rattle.std.specs.Prelude.{◌≡◌};
ghost use Rattle.text.specs.Text.{is_name};

use crate::bytes::Class;

// The longest name, in bytes.
const NAME_BYTES: usize = 12;

// Whether the bytes are a name: 1 to 12 bytes from A to Z and 0 to 9.
pub fn is_name(bytes: &[u8]) -> bool
    ensures { result ≡ is_name bytes.now }
{
    (1..=NAME_BYTES).contains(&bytes.len()) && Class::Letter.has_all(bytes)
}
