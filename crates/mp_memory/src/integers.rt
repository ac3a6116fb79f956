// Sums and products of integers. They are formed in 128 bits and tested against `MAXINT`, so that a greater one, up to
// that of 64 bits, is a change of the constant alone.
ghost use Rattle.std.specs.Prelude.{◌≡◌, ◌+ℤ◌, ◌-ℤ◌, ◌*ℤ◌, pos};
ghost use Rattle.mp_memory.specs.Integers.{as_integer};

use mp_base::MAXINT;

/// The number, where it is an integer: from `-MAXINT` to `MAXINT` (ISO 7185, 6.4.2.2).
pub fn integer(number: i128) -> Option<i64>
    ensures { result ≡ as_integer number }
{
    let greatest = i128::from(MAXINT);
    if -greatest <= number && number <= greatest {
        return Some(number as i64);
    }
    None
}

/// The sum, where it is an integer.
pub fn sum(i: i64, j: i64) -> Option<i64>
    ensures { result ≡ as_integer (i +ℤ j) }
{
    integer(i as i128 + j as i128)
}

/// The difference, where it is an integer.
pub fn difference(i: i64, j: i64) -> Option<i64>
    ensures { result ≡ as_integer (i -ℤ j) }
{
    integer(i as i128 - j as i128)
}

/// The product, where it is an integer.
pub fn product(i: i64, j: i64) -> Option<i64>
    ensures { result ≡ as_integer (i *ℤ j) }
{
    let product = i as i128 * j as i128;
    integer(product)
}

/// The number with its sign changed, where it is an integer.
pub fn negated(i: i64) -> Option<i64>
    ensures { result ≡ as_integer (pos 0 -ℤ i) }
{
    integer(-(i as i128))
}
