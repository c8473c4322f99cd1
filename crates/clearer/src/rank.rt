// The order RANK: the smaller number is below.
ghost use Rattle.std.specs.Prelude.{◌≡◌, int_lt};
ghost use Rattle.clearer.specs.Orders.{rank_level, rank_written};
ghost use Rattle.std.proofs.Common.{rules};

use records::{WaitOrder, WrittenOrder};
use text::Range;

pub struct Rank;

impl WaitOrder for Rank {
    type Level = i32;

    ghost below = { int_lt };

    ghost made = { rank_level };

    ghost irreflexive = { Prim.search rules };

    ghost transitive = { Prim.search rules };

    // The order's own, as the trait asks, and no From.
    fn level(number: i32, _extra: i32) -> i32 {
        number
    }

    // The order's own, with its laws above, and no derived order.
    fn below(x: &i32, y: &i32) -> bool {
        *x < *y
    }
}

// A level is one field, 0 to 9999.
impl WrittenOrder for Rank {
    const FIELDS: usize = 1;

    ghost FIELDS = { 1 };

    ghost written = { rank_written };

    ghost counted = { Prim.search rules };

    ghost one_or_two = { Prim.search rules };

    fn header_word() -> [u8; 4] {
        *b"RANK"
    }

    fn first_range() -> Range {
        Range { low: 0, high: 9999 }
    }

    fn second_range() -> Range {
        Range { low: 0, high: 0 }
    }
}
