// A triangle in whole numbers: places, the sides between them, and their products.
ghost use Rattle.std.specs.Prelude.{◌≡◌, ◌+◌, ◌*◌, ◌≤◌, nat_abs, ◌-ℤ◌, ◌*ℤ◌};
ghost use Rattle.grid.specs.Limits.{most_coordinate};
ghost use Rattle.mesh.specs.Place.{Near};
ghost use Rattle.measures.specs.Sides.{between, dot as dotOf, cross as cross_of, squared as squaredOf, dot_at as dotIs, cross_at as crossIs};
ghost use Rattle.measures.specs.Sizes.{Within, most_products};

use laws::signed;
use mesh::Place;

// What leads from one place to another.
#[derive(Clone, Copy)]
pub struct Side {
    pub x: i64,
    pub y: i64,
    pub z: i64,
}

// The side that leads to p from q.
pub fn minus(p: Place, q: Place) -> Side
    ensures { result ≡ between p q }
{
    Side {
        x: signed::apart(p.x, q.x),
        y: signed::apart(p.y, q.y),
        z: signed::apart(p.z, q.z),
    }
}

pub fn dot(u: Side, v: Side) -> i64
    requires { Within most_coordinate u × Within most_coordinate v }
    ensures { result ≡ dotOf u v }
{
    let x = signed::product(u.x, v.x);
    let y = signed::product(u.y, v.y);
    let z = signed::product(u.z, v.z);
    signed::sum(signed::sum(x, y), z)
}

// a·d - b·c
fn minor(a: i64, b: i64, c: i64, d: i64) -> i64
    requires { (nat_abs a ≤ most_coordinate) × (nat_abs b ≤ most_coordinate) × (nat_abs c ≤ most_coordinate) × (nat_abs d ≤ most_coordinate) }
    ensures { result ≡ a *ℤ d -ℤ b *ℤ c }
{
    signed::difference(signed::product(a, d), signed::product(b, c))
}

pub fn cross(u: Side, v: Side) -> Side
    requires { Within most_coordinate u × Within most_coordinate v }
    ensures { result ≡ cross_of u v }
{
    Side {
        x: minor(u.y, u.z, v.y, v.z),
        y: minor(u.z, u.x, v.z, v.x),
        z: minor(u.x, u.y, v.x, v.y),
    }
}

pub fn squared(u: Side) -> u64
    requires { Within (most_products 2) u }
    ensures { result ≡ squaredOf u }
{
    let x = signed::square(u.x);
    let y = signed::square(u.y);
    let z = signed::square(u.z);
    x + y + z
}

// The dot product of the two sides that leave corner p of the triangle p, q, r.
pub fn dot_at(p: Place, q: Place, r: Place) -> i64
    requires { Near p × Near q × Near r }
    ensures { result ≡ dotIs p q r }
{
    dot(minus(q, p), minus(r, p))
}

// The squared cross product of the same sides.
pub fn cross_at(p: Place, q: Place, r: Place) -> u64
    requires { Near p × Near q × Near r }
    ensures { result ≡ crossIs p q r }
{
    squared(cross(minus(q, p), minus(r, p)))
}
