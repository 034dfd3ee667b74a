// What a triangle gives its corners.
ghost use Rattle.std.specs.Prelude.{◌≡◌, ◌^◌, ◌<◌, pos};
ghost use Rattle.grid.specs.Limits.{window_to};
ghost use Rattle.mesh.specs.Place.{Near};
ghost use Rattle.measures.specs.Sides.{between, squared};
ghost use Rattle.measures.specs.Vectors.{whole};
ghost use Rattle.measures.specs.Sizes.{SmallDots};
ghost use Rattle.measures.specs.Corners.{dots_of as dotsAre, squares_of as squaresAre, double_area, cotangents as cotangentsOf, acute_share, acute_shares, shares as shares_of};

use crate::{sides, whole};
use laws::signed;
use mesh::Place;

// d at each corner.
#[derive(Clone, Copy)]
pub struct Dots {
    pub one: i64,
    pub two: i64,
    pub three: i64,
}

// A number for each corner.
#[derive(Clone, Copy)]
pub struct Corners {
    pub one: f64,
    pub two: f64,
    pub three: f64,
}

pub fn dots_of(p: Place, q: Place, r: Place) -> Dots
    requires { Near p × Near q × Near r }
    ensures { result ≡ dotsAre p q r }
{
    Dots {
        one: sides::dot_at(p, q, r),
        two: sides::dot_at(q, r, p),
        three: sides::dot_at(r, p, q),
    }
}

// The squared side that leads to r from q.
fn squared_side(q: Place, r: Place) -> f64
    requires { Near q × Near r }
    ensures { result ≡ whole (pos (squared (between r q))) }
{
    whole::float_of_count(sides::squared(sides::minus(r, q)))
}

// L at each corner: the squared side opposite it.
pub fn squares_of(p: Place, q: Place, r: Place) -> Corners
    requires { Near p × Near q × Near r }
    ensures { result ≡ squaresAre p q r }
{
    Corners {
        one: squared_side(q, r),
        two: squared_side(r, p),
        three: squared_side(p, q),
    }
}

// D, twice the area, from N.
pub fn double_area(n: u64) -> f64
    requires { (0 < n) × (n < 2 ^ window_to) }
    ensures { result ≡ double_area n }
{
    let found = root::root(n);
    let scale = found.scale;
    whole::float_of_count(found.root) / whole::float_of_count(1u64 << scale)
}

pub fn cotangents(d: Dots, double: f64) -> Corners
    requires { SmallDots d }
    ensures { result ≡ cotangentsOf d double }
{
    Corners {
        one: whole::float_of(d.one) / double,
        two: whole::float_of(d.two) / double,
        three: whole::float_of(d.three) / double,
    }
}

// A corner's share where no d is negative: j is the corner after it, k the one after j.
fn acute_share(lj: f64, cotj: f64, lk: f64, cotk: f64) -> f64
    ensures { result ≡ acute_share lj cotj lk cotk }
{
    (lj * cotj + lk * cotk) / 8.0
}

fn acute_shares(l: Corners, cot: Corners) -> Corners
    ensures { result ≡ acute_shares l cot }
{
    Corners {
        one: acute_share(l.two, cot.two, l.three, cot.three),
        two: acute_share(l.three, cot.three, l.one, cot.one),
        three: acute_share(l.one, cot.one, l.two, cot.two),
    }
}

// The share of each corner.
pub fn shares(d: Dots, l: Corners, cot: Corners, double: f64) -> Corners
    requires { SmallDots d }
    ensures { result ≡ shares_of d l cot double }
{
    let quarter = double / 4.0;
    let eighth = double / 8.0;
    if signed::is_negative(d.one) {
        return Corners {
            one: quarter,
            two: eighth,
            three: eighth,
        };
    }
    if signed::is_negative(d.two) {
        return Corners {
            one: eighth,
            two: quarter,
            three: eighth,
        };
    }
    if signed::is_negative(d.three) {
        return Corners {
            one: eighth,
            two: eighth,
            three: quarter,
        };
    }
    acute_shares(l, cot)
}
