// The values, read and written, and tests of them by their bits.
ghost use Rattle.std.specs.Prelude.{◌≡◌, ◌<◌, length, get_or, set};
ghost use Rattle.mesh.specs.State.{plus_zero};
ghost use Rattle.mesh.specs.Valid.{finite};
ghost use Rattle.mesh.specs.Test.{same_float};

// The value of the row n.
pub fn value(v: &[f64], n: usize) -> f64
    requires { n < length v.now }
    ensures { result ≡ get_or v.now n plus_zero }
{
    v[n]
}

// Whether x is neither infinite nor a NaN.
pub fn is_finite(x: f64) -> bool
    ensures { result ≡ finite x }
{
    x.is_finite()
}

// Whether x and y are finite and have the same bits.
pub fn same_bits(x: f64, y: f64) -> bool
    ensures { result ≡ same_float x y }
{
    if !is_finite(x) {
        return false;
    }
    if !is_finite(y) {
        return false;
    }
    x.to_bits() == y.to_bits()
}

// Whether x has the bits of +0.
pub fn is_plus_zero(x: f64) -> bool
    ensures { result ≡ same_float x plus_zero }
{
    if x == x {
        return f64::to_bits(x) == 0;
    }
    false
}

// Writes the value of the row n.
pub fn put_value(v: &mut [f64], n: usize, x: f64)
    requires { n < length v.old }
    ensures { v.new ≡ set v.old n x }
{
    v[n] = x;
}
