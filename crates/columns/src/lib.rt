// One field of the records of all shells at a time, in the reader's work room.

#![tactic(auto)]

ghost use Rattle.std.specs.Prelude.{◌≡◌, ◌+◌, ◌*◌, ◌<◌, ◌≤◌, length};
ghost use Rattle.std.proofs.lemmas.List.Edits.{sets};
ghost use Rattle.laws.specs.Values.{list_to};
ghost use Rattle.grid.specs.Limits.{most_points};
ghost use Rattle.columns.specs.declared.ways.Way.TheVariants.{Count};
ghost use Rattle.columns.specs.Room.{StandsIn, column_at, points_in, marks_in, point_number, triangle_number, record_in};
ghost use Rattle.columns.specs.Columns.{field_of, way_of, kind_of, worth_of, put_at, column_to};
ghost use Rattle.columns.specs.Turns.{PointTurn, TriangleTurn};

use ways::Way;

mod field;
mod parts;
mod ways;

pub use field::Field;
pub use parts::Parts;

// What point i brings to the column of a field of points: its number, its mark or a coordinate. A count does not look at it.
fn worth(work: &[u32], parts: Parts, field: Field, i: usize) -> u32
    requires { (i < parts.points) × (parts.points ≤ most_points) × (4 * parts.points ≤ length work.now) }
    ensures { result ≡ worth_of (kind_of field) (points_in parts.points work.now) (marks_in parts.points work.now) i }
{
    match field {
        Field::Low => i as u32,
        Field::Touches => work[parts.marks_at() + i],
        Field::Points | Field::LeastX | Field::GreatestX => work[3 * i],
        Field::LeastY | Field::GreatestY => work[3 * i + 1],
        Field::LeastZ | Field::GreatestZ | Field::Triangles => work[3 * i + 2],
    }
}

// Writes x to `count` places from `from` on.
pub fn fill(work: &mut [u32], from: usize, count: usize, x: u32)
    requires { from + count ≤ length work.old }
    ensures { work.new ≡ sets work.old from (list_to count (λ n. x)) }
{
    work[from..from + count].fill(x);
}

// Point i into its shell's place of the column.
fn add_point(work: &mut [u32], parts: Parts, field: Field, way: Way, i: usize)
    requires { PointTurn parts.points parts.triangles (kind_of field) way work.old i }
    ensures { let room = work.old in
        work.new ≡ put_at way (column_at parts.points parts.triangles + point_number parts.points parts.triangles room i) (worth_of (kind_of field) (points_in parts.points room) (marks_in parts.points room) i) room }
{
    let at = parts.column_at() + work[parts.numbers_at() + i] as usize;
    let x = worth(work, parts, field, i);
    work[at] = way.put(work[at], x);
}

// Triangle k counted in its shell's place of the column.
fn add_triangle(work: &mut [u32], parts: Parts, k: usize)
    requires { TriangleTurn parts.points parts.triangles work.old k }
    ensures { let room = work.old in
        work.new ≡ put_at Count (column_at parts.points parts.triangles + triangle_number parts.points parts.triangles room k) 0 room }
{
    let first = work[parts.triangles_at() + 3 * k] as usize;
    let at = parts.column_at() + work[parts.numbers_at() + first] as usize;
    work[at] += 1;
}

// The column of a field, from all points.
fn gather_points(work: &mut [u32], parts: Parts, shells: usize, field: Field)
    requires { StandsIn shells parts.points parts.triangles work.old }
    ensures { let room = work.old in
        work.new ≡ sets room (column_at parts.points parts.triangles) (list_to shells (column_to (way_of (kind_of field)) (point_number parts.points parts.triangles room) (worth_of (kind_of field) (points_in parts.points room) (marks_in parts.points room)) parts.points)) }
{
    let way = field.way();
    fill(work, parts.column_at(), shells, way.start());
    for i in 0..parts.points {
        add_point(work, parts, field, way, i);
    }
}

// The column of triangles.
fn gather_triangles(work: &mut [u32], parts: Parts, shells: usize)
    requires { StandsIn shells parts.points parts.triangles work.old }
    ensures { let room = work.old in
        work.new ≡ sets room (column_at parts.points parts.triangles) (list_to shells (column_to Count (triangle_number parts.points parts.triangles room) (λ k. 0) parts.triangles)) }
{
    fill(work, parts.column_at(), shells, 0);
    for k in 0..parts.triangles {
        add_triangle(work, parts, k);
    }
}

// The column of a field: that field of every shell's record, from the mesh and the shell numbers that stand in the room.
pub fn gather(work: &mut [u32], parts: Parts, shells: usize, field: Field)
    requires { StandsIn shells parts.points parts.triangles work.old }
    ensures { let room = work.old in
        work.new ≡ sets room (column_at parts.points parts.triangles) (list_to shells (λ n. field_of (kind_of field) (record_in parts.points parts.triangles room n))) }
{
    match field {
        Field::Triangles => gather_triangles(work, parts, shells),
        _ => gather_points(work, parts, shells, field),
    }
}
