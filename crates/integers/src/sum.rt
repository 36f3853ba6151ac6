// Sums of products of integers.
ghost use Rattle.std.specs.Prelude.{◌*◌, ◌≤◌, unsigned_abs};

// A sum of up to 32 products, each of at most 536870911 squared: below 2^63.
#[derive(Clone, Copy)]
pub struct IntegerSum {
    pub total: i64,
    pub count: u32,
    ghost few: { count ≤ 32 },
    ghost small: { unsigned_abs total ≤ count * 288230375077969921 },
}
