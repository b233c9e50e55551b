// Divisors of numbers of 128 bits, and exact quotients.
ghost use Rattle.std.specs.Prelude.{◌≡◌, ◌<◌, ◌^◌, ◌*◌, ◌/◌, ◌%◌, pos, unsigned_abs, int_div, SomeIff, FitsSigned};
ghost use Rattle.std.specs.Int.{IsGcd, trailing_zeros, w64, w128};
ghost use Rattle.lq_base_numbers.specs.Fractions.Sign.{signed};

/// The greatest common divisor. Steps of 64 bits take a fraction of the time of those of 128, so it goes on with the first as soon as it
/// can.
pub fn gcd(a: u128, b: u128) -> u128
    ensures { IsGcd a b result }
{
    if a == 1 || b == 1 {
        1
    } else if a < 1 << 64 && b < 1 << 64 {
        small_gcd(a as u64, b as u64) as u128
    } else if a < 1 << 64 {
        rest_gcd(b, a as u64)
    } else if b < 1 << 64 {
        rest_gcd(a, b as u64)
    } else {
        long_gcd(a, b)
    }
}

/// The greatest common divisor of two numbers of 64 bits: the twos that they share, and the divisor of their odd parts.
fn small_gcd(a: u64, b: u64) -> u64
    ensures { IsGcd a b result }
{
    if a == 0 {
        b
    } else if b == 0 {
        a
    } else {
        let twos = a.trailing_zeros().min(b.trailing_zeros());
        odd_gcd(odd_part(a), odd_part(b)) << twos
    }
}

/// The greatest common divisor of odd numbers. Their difference is even, and its twos divide neither.
fn odd_gcd(a: u64, b: u64) -> u64
    requires first { a % 2 ≡ 1 }
    requires second { b % 2 ≡ 1 }
    ensures { IsGcd a b result }
{
    let mut x = a;
    let mut y = b;
    while x != y {
        let apart = x.abs_diff(y);
        x = x.min(y);
        y = odd_part(apart);
    }
    x
}

/// The greatest common divisor of a number and one of 64 bits.
fn rest_gcd(a: u128, b: u64) -> u128
    ensures { IsGcd a b result }
{
    if b == 0 {
        a
    } else {
        small_gcd(b, (a % b as u128) as u64) as u128
    }
}

/// The greatest common divisor of two numbers above 0, found as that of two of 64 bits is.
fn long_gcd(a: u128, b: u128) -> u128
    requires first { 0 < a }
    requires second { 0 < b }
    ensures { IsGcd a b result }
{
    let twos = a.trailing_zeros().min(b.trailing_zeros());
    long_odd_gcd(long_odd_part(a), long_odd_part(b)) << twos
}

/// The greatest common divisor of odd numbers.
fn long_odd_gcd(a: u128, b: u128) -> u128
    requires first { a % 2 ≡ 1 }
    requires second { b % 2 ≡ 1 }
    ensures { IsGcd a b result }
{
    let mut x = a;
    let mut y = b;
    while x != y {
        if x < 1 << 64 && y < 1 << 64 {
            return odd_gcd(x as u64, y as u64) as u128;
        }
        let apart = x.abs_diff(y);
        x = x.min(y);
        y = long_odd_part(apart);
    }
    x
}

/// What is left of a number when it is halved as long as it is even.
fn long_odd_part(a: u128) -> u128
    requires { 0 < a }
    ensures odd { result % 2 ≡ 1 }
    ensures times { result * 2 ^ trailing_zeros w128 a ≡ a }
{
    a >> a.trailing_zeros()
}

/// What is left of a number of 64 bits when it is halved as long as it is even.
fn odd_part(a: u64) -> u64
    requires { 0 < a }
    ensures odd { result % 2 ≡ 1 }
    ensures times { result * 2 ^ trailing_zeros w64 a ≡ a }
{
    a >> a.trailing_zeros()
}

/// A quotient. Most divisors are 1, and most numbers have 64 bits.
pub fn quotient(a: u128, by: u128) -> u128
    requires { 0 < by }
    ensures { result ≡ a / by }
{
    if by == 1 {
        a
    } else if a < 1 << 64 && by < 1 << 64 {
        (a as u64 / by as u64) as u128
    } else {
        a / by
    }
}

/// What a numerator and a denominator have in common.
pub fn common(numer: i128, denom: u128) -> u128
    requires some { 0 < denom }
    requires small { denom < 2 ^ 127 }
    ensures divisor { IsGcd (unsigned_abs numer) denom result }
    ensures some { 0 < result }
    ensures small { result < 2 ^ 127 }
{
    gcd(numer.unsigned_abs(), denom)
}

/// A quotient by a number that is small and not 0.
pub fn over(numer: i128, by: u128) -> i128
    requires some { 0 < by }
    requires small { by < 2 ^ 127 }
    ensures { result ≡ int_div numer (pos by) }
{
    if by == 1 { numer } else { numer / by as i128 }
}

/// The number of this size and sign, where it fits.
pub fn with_sign(negative: bool, size: u128) -> Option<i128>
    ensures { SomeIff result (FitsSigned w128 (signed negative size)) (signed negative size) }
{
    if negative {
        0i128.checked_sub_unsigned(size)
    } else {
        0i128.checked_add_unsigned(size)
    }
}
