// Numbers in base ten.
ghost use Rattle.std.specs.Prelude.{◌≡◌, min};
ghost use Rattle.text.specs.Text.{is_natural, natural, value_of, number_in, within, above, below, enough, capped};

use crate::bytes::Class;
use crate::range::Range;

// Above every `i32`, and low enough that one digit more fits a `u64`.
const ENOUGH: u64 = 1 << 40;

// Whether the field is digits without a leading zero.
fn is_natural(field: &[u8]) -> bool
    ensures { result ≡ is_natural field.now }
{
    Class::Digit.has_all(field) && !field.is_empty() && (field[0] != b'0' || field.len() == 1)
}

// The number that the digits write, cut down to ENOUGH.
fn value(digits: &[u8]) -> u64
    ensures { result ≡ min (value_of digits.now) enough }
{
    digits.iter().fold(0, |n: u64, d| {
        (n.min(ENOUGH) * 10 + d.saturating_sub(b'0') as u64).min(ENOUGH)
    })
}

// The number that the field writes without a sign, cut down to ENOUGH.
fn read_natural(field: &[u8]) -> Option<u64>
    ensures { result ≡ capped (natural field.now) }
{
    is_natural(field).then(|| value(field))
}

// The two that follow differ in the sign and in what they refuse, as their clauses say, so they are no one function.

fn not_below_zero(field: &[u8], range: Range) -> Option<i32>
    ensures { result ≡ within range.low range.high (above (natural field.now)) }
{
    range.keep(read_natural(field)? as i64)
}

fn below_zero(digits: &[u8], range: Range) -> Option<i32>
    ensures { result ≡ within range.low range.high (below (natural digits.now)) }
{
    match read_natural(digits) {
        Some(n) if n > 0 => range.keep(-(n as i64)),
        _ => None,
    }
}

// The number that the field writes, if it is in the range. The field may be of any length.
pub fn number_in(field: &[u8], range: Range) -> Option<i32>
    ensures { result ≡ number_in range.low range.high field.now }
{
    match field.strip_prefix(b"-") {
        Some(digits) => below_zero(digits, range),
        None => not_below_zero(field, range),
    }
}
