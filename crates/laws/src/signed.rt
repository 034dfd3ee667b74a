// Signed whole numbers: each operation with the exact result, where it fits.
ghost use Rattle.std.specs.Prelude.{◌≡◌, ◌+◌, ◌*◌, ◌<◌, ◌^◌, pos, nat_abs, ◌+ℤ◌, ◌-ℤ◌, ◌*ℤ◌};
ghost use Rattle.std.specs.Int.{w64};
ghost use Rattle.std.proofs.Common.{SFits};
ghost use Rattle.laws.specs.Signed.{negative};

// The sum of two numbers.
pub fn sum(a: i64, b: i64) -> i64
    requires { SFits w64 (a +ℤ b) }
    ensures { result ≡ a +ℤ b }
{
    a + b
}

// How much one number exceeds another: below 0 where it does not.
pub fn excess(a: u64, b: u64) -> i64
    requires a_bound { a < 2 ^ 63 }
    requires b_bound { b < 2 ^ 63 }
    ensures { result ≡ pos a -ℤ pos b }
{
    (a as i64) - (b as i64)
}

// The difference of two numbers.
pub fn difference(a: i64, b: i64) -> i64
    requires { nat_abs a + nat_abs b < 2 ^ 63 }
    ensures { result ≡ a -ℤ b }
{
    a - b
}

// The difference of two numbers that have no sign.
pub fn apart(a: u32, b: u32) -> i64
    ensures { result ≡ pos a -ℤ pos b }
{
    (a as i64) - (b as i64)
}

pub fn product(a: i64, b: i64) -> i64
    requires { nat_abs a * nat_abs b < 2 ^ 63 }
    ensures { result ≡ a *ℤ b }
{
    a * b
}

pub fn square(a: i64) -> u64
    requires { nat_abs a * nat_abs a < 2 ^ 63 }
    ensures { result ≡ nat_abs a * nat_abs a }
{
    (a * a) as u64
}

pub fn is_negative(a: i64) -> bool
    ensures { result ≡ negative a }
{
    a < 0
}

// The size of a number, without its sign.
pub fn size(a: i64) -> u64
    ensures { result ≡ nat_abs a }
{
    a.unsigned_abs()
}
