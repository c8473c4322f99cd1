// A range of numbers.
ghost use Rattle.std.specs.Prelude.{◌≡◌, Some};
ghost use Rattle.text.specs.Text.{within};

// The numbers that a field may have, both ends among them.
#[derive(Clone, Copy)]
pub struct Range {
    pub low: i32,
    pub high: i32,
}

impl Range {
    // The number, if it is in the range.
    pub(crate) fn keep(self, z: i64) -> Option<i32>
        ensures { result ≡ within self.low self.high (Some z) }
    {
        i32::try_from(z)
            .ok()
            .filter(|n| self.low <= *n && *n <= self.high)
    }
}
