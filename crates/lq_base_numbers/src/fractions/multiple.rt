// Products within 128 bits.
ghost use Rattle.std.specs.Prelude.{◌≡◌, ◌<◌, ◌*◌, ◌*ℤ◌, ◌^◌, SomeIff, FitsSigned, pos};
ghost use Rattle.std.specs.Int.{w128};

/// A multiple of a number, where it fits.
pub fn scaled(a: i128, by: u128) -> Option<i128>
    requires { by < 2 ^ 127 }
    ensures { SomeIff result (FitsSigned w128 (a *ℤ pos by)) (a *ℤ pos by) }
{
    if by == 1 {
        Some(a)
    } else {
        a.checked_mul(by as i128)
    }
}

/// A product, where it fits. Most numbers have 64 bits.
pub fn size_product(a: u128, b: u128) -> Option<u128>
    ensures { SomeIff result (a * b < 2 ^ 128) (a * b) }
{
    if a < 1 << 64 && b < 1 << 64 {
        Some(a * b)
    } else {
        a.checked_mul(b)
    }
}

/// A product, where it is below 2 ^ 127.
pub fn small_product(a: u128, b: u128) -> Option<u128>
    ensures { SomeIff result (a * b < 2 ^ 127) (a * b) }
{
    let Some(product) = size_product(a, b) else {
        return None;
    };
    if product < 1 << 127 {
        Some(product)
    } else {
        None
    }
}
