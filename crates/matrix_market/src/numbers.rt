// Numbers written in decimal digits.
ghost use Rattle.std.specs.Prelude.{◌≡◌, ◌^◌, ◌<◌, ◌≤◌, IfSome};
ghost use Rattle.matrix_market.specs.Layout as layout;
ghost use Rattle.matrix_market.specs.Stored.{stored};

use integers::Integer;
use kinds::ElementFault;

// The number that 1 to `most` digits write.
pub(crate) fn digits(most: usize, ds: &[u8]) -> Option<u64>
    requires { most ≤ 18 }
    ensures value { result ≡ layout.digits most ds.now }
    ensures bound { IfSome result (λ n. n < 10 ^ 18) }
{
    if ds.is_empty() || ds.len() > most {
        return None;
    }
    let mut n = 0;
    for c in ds {
        if !c.is_ascii_digit() {
            return None;
        }
        n = 10 * n + u64::from(*c - b'0');
    }
    Some(n)
}

// The element that holds z.
fn element(z: i64) -> Result<Integer, Option<ElementFault>>
    ensures { result ≡ stored (layout.in_range z) }
{
    Integer::try_from(z).map_err(Some)
}

// The integer that `field` writes.
pub(crate) fn integer(field: &[u8]) -> Result<Integer, Option<ElementFault>>
    ensures { result ≡ stored (layout.integer field.now) }
{
    match field {
        [b'-', ds @ ..] => element(-(digits(18, ds).ok_or(None)? as i64)),
        _ => element(digits(18, field).ok_or(None)? as i64),
    }
}
