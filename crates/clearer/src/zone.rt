// The order ZONE: a level is below another of the same zone with a larger rank.
ghost use Rattle.std.specs.Prelude.{◌≡◌};
ghost use Rattle.clearer.specs.Orders.{zone_below, zone_level, zone_written};
ghost use Rattle.std.proofs.Common.{rules};

use crate::level::ZoneLevel;
use records::{WaitOrder, WrittenOrder};
use text::Range;

pub struct Zone;

impl WaitOrder for Zone {
    type Level = ZoneLevel;

    ghost below = { zone_below };

    ghost made = { zone_level };

    ghost irreflexive = { Prim.search rules };

    ghost transitive = { Prim.search rules };

    // The order's own, as the trait asks, and no From.
    fn level(number: i32, extra: i32) -> ZoneLevel {
        ZoneLevel {
            zone: number,
            rank: extra,
        }
    }

    // The order's own, with its laws above, and no derived order.
    fn below(x: &ZoneLevel, y: &ZoneLevel) -> bool {
        x.zone == y.zone && x.rank < y.rank
    }
}

// A level is two fields: the zone, 0 to 99, and the rank, 0 to 9999.
impl WrittenOrder for Zone {
    const FIELDS: usize = 2;

    ghost FIELDS = { 2 };

    ghost written = { zone_written };

    ghost counted = { Prim.search rules };

    ghost one_or_two = { Prim.search rules };

    fn header_word() -> [u8; 4] {
        *b"ZONE"
    }

    fn first_range() -> Range {
        Range { low: 0, high: 99 }
    }

    fn second_range() -> Range {
        Range { low: 0, high: 9999 }
    }
}
