// The area sums and running vectors of all points, in the two result rooms.

#![tactic(auto)]

ghost use Rattle.std.specs.Prelude.{◌≡◌, true, ℕ, ◌*◌, ◌<◌, length, get_or};
ghost use Rattle.std.specs.Float.{nan};
ghost use Rattle.laws.specs.Mesh.{triangle};
ghost use Rattle.mesh.specs.Mesh.{triangle_count};
ghost use Rattle.mesh.specs.Check.{triangles_fit};
ghost use Rattle.measures.specs.Sides.{cross_at};
ghost use Rattle.mesh.specs.Place.{Near};
ghost use Rattle.measures.specs.Vectors.{plus_zero};
ghost use Rattle.sums.specs.Sums.{add_sides, add_corner, at_point, add_places, add_triangle, sum_after};
ghost use Rattle.sums.specs.Rooms.{sum_at, RoomsFit};

use measures::vectors::Vector;
use measures::{corners, sides, vectors};
use mesh::Place;

// Sums start at +0.0. Rooms of whole numbers are made zero by `rooms::clear`: one function for both would take the zero, and be `fill` itself.
pub fn clear(room: &mut [f64])
    ensures { (k : ℕ) → k < length room.old → get_or room.new k nan ≡ plus_zero }
{
    room.fill(0.0);
}

// The running vector at corner p of the triangle p, q, r, with the cotangents at q and r.
fn add_sides(before: Vector, p: Place, q: Place, r: Place, cotj: f64, cotk: f64) -> Vector
    requires { Near p × Near q × Near r }
    ensures { result ≡ add_sides p q r cotj cotk before }
{
    let first = Vector::of_side(sides::minus(p, q)).times(cotk);
    let second = Vector::of_side(sides::minus(p, r)).times(cotj);
    before.plus(first).plus(second)
}

// What that corner adds to the sums of its point.
fn add_corner(
    areas: &mut [f64],
    vectors: &mut [f64],
    point: usize,
    p: Place,
    q: Place,
    r: Place,
    share: f64,
    cotj: f64,
    cotk: f64,
)
    requires point_in_bounds { (point < length areas.old) × (length vectors.old ≡ 3 * length areas.old) }
    requires near { Near p × Near q × Near r }
    ensures { let before = sum_at areas.old vectors.old in
        let after = sum_at areas.new vectors.new in
        ((x : ℕ) → after x ≡ at_point point x (add_corner p q r share cotj cotk) (before x)) }
{
    areas[point] += share;
    let at = 3 * point;
    let before = vectors::vector_at(vectors, at);
    vectors::put_vector(vectors, at, add_sides(before, p, q, r, cotj, cotk));
}

// A triangle of three places whose N is n, not 0: each corner in order.
fn add_places(
    areas: &mut [f64],
    vectors: &mut [f64],
    a: usize,
    b: usize,
    c: usize,
    p: Place,
    q: Place,
    r: Place,
    n: u64,
)
    requires a_in_bounds { (a < length areas.old) × (b < length areas.old) × (c < length areas.old) × (length vectors.old ≡ 3 * length areas.old) }
    requires near { Near p × Near q × Near r }
    requires n_nonzero { (0 < n) × (n ≡ cross_at p q r) }
    ensures { let before = sum_at areas.old vectors.old in
        let after = sum_at areas.new vectors.new in
        ((x : ℕ) → after x ≡ add_places (triangle a b c) p q r x (before x)) }
{
    let double = corners::double_area(n);
    let dots = corners::dots_of(p, q, r);
    let cot = corners::cotangents(dots, double);
    let share = corners::shares(dots, corners::squares_of(p, q, r), cot, double);
    add_corner(areas, vectors, a, p, q, r, share.one, cot.two, cot.three);
    add_corner(areas, vectors, b, q, r, p, share.two, cot.three, cot.one);
    add_corner(areas, vectors, c, r, p, q, share.three, cot.one, cot.two);
}

// A triangle by its points' numbers. N = 0: it gives nothing.
fn add_triangle(
    points: &[u32],
    areas: &mut [f64],
    vectors: &mut [f64],
    a: usize,
    b: usize,
    c: usize,
)
    requires a_in_bounds { (a < length areas.old) × (b < length areas.old) × (c < length areas.old) }
    requires rooms_fit { RoomsFit points.now areas.old vectors.old }
    ensures { let before = sum_at areas.old vectors.old in
        let after = sum_at areas.new vectors.new in
        ((x : ℕ) → after x ≡ add_triangle points.now (triangle a b c) x (before x)) }
{
    let p = mesh::place_of(points, a);
    let q = mesh::place_of(points, b);
    let r = mesh::place_of(points, c);
    let n = sides::cross_at(p, q, r);
    if n != 0 {
        add_places(areas, vectors, a, b, c, p, q, r, n);
    }
}

// All triangles, in list order.
pub fn add_triangles(points: &[u32], triangles: &[u32], areas: &mut [f64], vectors: &mut [f64])
    requires rooms_fit { RoomsFit points.now areas.old vectors.old }
    requires areas_value { triangles_fit triangles.now (length areas.old) ≡ true }
    ensures { let before = sum_at areas.old vectors.old in
        let after = sum_at areas.new vectors.new in
        ((x : ℕ) → after x ≡ sum_after points.now triangles.now x (triangle_count triangles.now) (before x)) }
{
    for i in 0..triangles.len() / 3 {
        let at = 3 * i;
        let a = triangles[at] as usize;
        let b = triangles[at + 1] as usize;
        let c = triangles[at + 2] as usize;
        add_triangle(points, areas, vectors, a, b, c);
    }
}
