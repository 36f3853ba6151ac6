// Sums of products of Gaussian integers.
ghost use Rattle.std.specs.Prelude.{◌*◌, ◌≤◌};
ghost use Rattle.gaussian_integers.specs.Gaussian.{Within};
ghost use Rattle.gaussian_integers.specs.Parts.{value};

use crate::parts::Parts;

// A sum of up to 32 products, each part of each at most twice 268435455 squared: below 2^62.
#[derive(Clone, Copy)]
pub struct GaussianSum {
    pub total: Parts,
    pub count: u32,
    ghost few: { count ≤ 32 },
    ghost small: { Within (count * 144115187002114050) (value total) },
}
