// The order that the first line of a text names.
ghost use Rattle.std.specs.Prelude.{◌≡◌};
ghost use Rattle.reader.specs.Lines.{header_is};

use records::WrittenOrder;
use text::Lines;

// Whether field 2 of line 1 is the header word of the order. Any text is answered.
pub fn is_written_in<O: WrittenOrder>(text: &[u8]) -> bool
    ensures { result ≡ header_is O.WrittenOrder.written.word text.now }
{
    Lines::of(text).next().is_some_and(|line| line.field(text, 1).bytes(text)
        == O::header_word().as_slice())
}
