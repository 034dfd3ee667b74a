// Whole numbers as binary64 numbers: the leaves that meet machine words, so that nothing above them does.
ghost use Rattle.std.specs.Prelude.{◌≡◌, ◌^◌, ◌≤◌, pos, nat_abs};
ghost use Rattle.std.specs.Float.{binary64};
ghost use Rattle.std.specs.Float.Ieee.{of_int};

// Up to 2^53 every whole number is a binary64.
pub fn float_of(a: i64) -> f64
    requires { nat_abs a ≤ 2 ^ 53 }
    ensures { result ≡ of_int binary64 a }
{
    a as f64
}

// The same of a number without a sign. A function for both kinds is no plainer: it would need a trait with this as its law, and two impls.
pub fn float_of_count(n: u64) -> f64
    requires { n ≤ 2 ^ 53 }
    ensures { result ≡ of_int binary64 (pos n) }
{
    n as f64
}
