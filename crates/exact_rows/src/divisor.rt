//! Greatest common divisors.
ghost use Rattle.std.specs.Prelude.{◌≡◌, ◌≤◌, IsTrue, IfSome, max};
ghost use Rattle.lk_model.specs.Limits.{is_in_range};
ghost use Rattle.lk_model.specs.Linear.Arithmetic.{gcd, gcd_of};

/// The greatest common divisor of two numbers within ±(2^127 - 1), at least 0. That of 0 and 0 is 0.
pub fn gcd(a: i128, b: i128) -> i128
    requires first { IsTrue (is_in_range a) }
    requires second { IsTrue (is_in_range b) }
    ensures value { result ≡ gcd_of a b }
    ensures range { IsTrue (is_in_range result) }
{
    gcd_unsigned(a.unsigned_abs(), b.unsigned_abs()) as i128
}

/// The greatest common divisor of two numbers without a sign, by Euclid's algorithm.
fn gcd_unsigned(a: u128, b: u128) -> u128
    ensures value { result ≡ gcd a b }
    ensures most { result ≤ max a b }
{
    let (mut x, mut y) = (a, b);
    while y != 0 {
        if let Some(divisor) = gcd_short(x, y) {
            return divisor;
        }
        (x, y) = (y, x % y);
    }
    x
}

// That of numbers of 64 bits, whose remainders a processor finds several times as fast.
fn gcd_short(a: u128, b: u128) -> Option<u128>
    ensures { IfSome result (λ g. g ≡ gcd a b) }
{
    match (u64::try_from(a), u64::try_from(b)) {
        (Ok(x), Ok(y)) => Some(u128::from(gcd_words(x, y))),
        _ => None,
    }
}

fn gcd_words(a: u64, b: u64) -> u64
    ensures { result ≡ gcd a b }
{
    let (mut x, mut y) = (a, b);
    while y != 0 {
        (x, y) = (y, x % y);
    }
    x
}
