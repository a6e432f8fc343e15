//! The sums, products and quotients of a collision. No sum and no product reaches 2^62 in size,
//! and no divisor is below 1.

ghost use Rattle.std.specs.Prelude.{◌≡◌, ◌<◌, ◌^◌, ℕ, ℤ, pos, ◌+ℤ◌, ◌-ℤ◌, ◌*ℤ◌, ◌≤ℤ◌, unsigned_abs};
ghost use Rattle.lbm_space.specs.Stencil.{dot, part};
ghost use Rattle.lbm_cell.specs.Collision.{floor_div};

// a + b
#[inline]
pub fn sum(a: i64, b: i64) -> i64
    requires { unsigned_abs (a +ℤ b) < 2 ^ 62 }
    ensures value { result ≡ a +ℤ b }
    ensures size { unsigned_abs result < 2 ^ 62 }
{
    a + b
}

// a - b
#[inline]
pub fn difference(a: i64, b: i64) -> i64
    requires { unsigned_abs (a -ℤ b) < 2 ^ 62 }
    ensures value { result ≡ a -ℤ b }
    ensures size { unsigned_abs result < 2 ^ 62 }
{
    a - b
}

// a b
#[inline]
pub fn product(a: i64, b: i64) -> i64
    requires { unsigned_abs (a *ℤ b) < 2 ^ 62 }
    ensures value { result ≡ a *ℤ b }
    ensures size { unsigned_abs result < 2 ^ 62 }
{
    a * b
}

// a / b, rounded toward minus infinity
#[inline]
pub fn quotient(a: i64, b: i64) -> i64
    requires { pos 1 ≤ℤ b }
    ensures { result ≡ floor_div a b }
{
    a.div_euclid(b)
}

// The inner product of two vectors.
#[inline]
pub fn dot(u: &[i64; 3], v: &[i64; 3]) -> i64
    requires { (a : ℕ) → a < 3 → unsigned_abs (part u.now a *ℤ part v.now a) < 2 ^ 60 }
    ensures { result ≡ dot u.now v.now }
{
    let x = product(u[0], v[0]);
    let y = product(u[1], v[1]);
    let z = product(u[2], v[2]);
    sum(sum(x, y), z)
}
