// The sizes of a matrix that fits, and its places in a table of 32 columns.
ghost use Rattle.std.specs.Prelude.{◌≡◌, ◌*◌, ◌<◌, ◌≤◌, is_some, IfSome};
ghost use Rattle.matrix_market.specs.Sizes.{Bounded, in_bounds, place};

// m rows and n columns.
#[derive(Clone, Copy)]
pub(crate) struct Sizes {
    pub(crate) m: usize,
    pub(crate) n: usize,
    ghost bounded: { Bounded m n },
}

impl Sizes {
    // Sizes in bounds.
    pub(crate) fn new(m: usize, n: usize) -> Option<Self>
        ensures bounds { is_some result ≡ in_bounds m n }
        ensures given { IfSome result (λ s. (s.m ≡ m) × (s.n ≡ n)) }
    {
        if m > 32 || !(1..=32).contains(&n) {
            return None;
        }
        Some(Sizes { m, n })
    }

    // How many entries there are.
    pub(crate) fn count(self) -> usize
        ensures value { result ≡ self.m * self.n }
        ensures bound { result ≤ 1024 }
    {
        self.m * self.n
    }

    // Where entry number k stands: entries go column by column, and the table's rows hold 32.
    pub(crate) fn place(self, k: usize) -> usize
        requires { k < self.m * self.n }
        ensures value { result ≡ place self.m k }
        ensures bound { result < 1024 }
    {
        32 * (k % self.m) + k / self.m
    }
}
