// Shells: points that triangle sides lead between, and a record of each shell, in a lent list of records.

#![tactic(auto)]

ghost use Rattle.std.specs.Prelude.{◌≡◌, ◌<◌, ◌≤◌, length, get_or, set};
ghost use Rattle.grid.specs.Refusal.{told, granted_or};
ghost use Rattle.mesh.specs.Mesh.{triangle_count, triangle_at};
ghost use Rattle.mesh.specs.Place.{place_of};
ghost use Rattle.shellnumbers.specs.Numbering.{number_of};
ghost use Rattle.shellnumbers.specs.Lists.{left};
ghost use Rattle.records.specs.Record.{sixfold as sixfoldOf};
ghost use Rattle.records.specs.Grown.{none, with_point, with_triangle};
ghost use Rattle.shelllist.specs.Promise.{Shells};
ghost use Rattle.shelllist.specs.Filled.{PointTurn, PointsFit, TriangleTurn, TrianglesFit, changed, emptied, points_added, triangles_added, records_filled, FillFits};

use grid::refusal::Refusal;
use mesh::Mesh;
use records::{Shell, blank, number_at, number_of, with_point, with_triangle};
use shellnumbers::list_numbers;

// Makes the first records empty.
fn empty(records: &mut [Shell], count: usize)
    requires { count ≤ length records.old }
    ensures { records.new ≡ emptied count records.old }
{
    records[..count].fill(blank());
}

// Adds point i to its record.
fn add_point(records: &mut [Shell], numbers: &[u32], points: &[u32], marks: &[u8], i: usize)
    requires { PointTurn points.now marks.now numbers.now records.old i }
    ensures { let grown = with_point i (place_of points.now i) (get_or marks.now i 0) in
        records.new ≡ changed grown (number_of numbers.now i) records.old }
{
    let n = number_at(numbers, i);
    let s = records[n];
    records[n] = with_point(s, points, marks, i);
}

// Adds all points.
fn add_points(records: &mut [Shell], numbers: &[u32], points: &[u32], marks: &[u8])
    requires { PointsFit points.now marks.now numbers.now records.old }
    ensures { records.new ≡ points_added points.now marks.now numbers.now (length numbers.now) records.old }
{
    for i in 0..numbers.len() {
        add_point(records, numbers, points, marks, i);
    }
}

// Adds triangle k to its record.
fn add_triangle(records: &mut [Shell], numbers: &[u32], points: &[u32], triangles: &[u32], k: usize)
    requires { TriangleTurn points.now triangles.now numbers.now records.old k }
    ensures { let t = triangle_at triangles.now k in
        records.new ≡ changed (with_triangle (sixfoldOf points.now t)) (number_of numbers.now t.one) records.old }
{
    let n = number_of(numbers, triangles, k);
    let s = records[n];
    records[n] = with_triangle(s, points, triangles, k);
}

// Adds all triangles.
fn add_triangles(records: &mut [Shell], numbers: &[u32], points: &[u32], triangles: &[u32])
    requires { TrianglesFit points.now triangles.now numbers.now records.old }
    ensures { records.new ≡ triangles_added points.now triangles.now numbers.now (triangle_count triangles.now) records.old }
{
    for k in 0..triangles.len() / 3 {
        add_triangle(records, numbers, points, triangles, k);
    }
}

// Makes the record of each shell, from the shell numbers of all points.
fn fill(records: &mut [Shell], shells: usize, numbers: &[u32], mesh: Mesh)
    requires { FillFits mesh.points.now mesh.triangles.now mesh.marks.now numbers.now shells records.old }
    ensures { records.new ≡ records_filled mesh.entry.points.now mesh.entry.triangles.now mesh.entry.marks.now numbers.now shells records.old }
{
    empty(records, shells);
    add_points(records, numbers, mesh.points, mesh.marks);
    add_triangles(records, numbers, mesh.points, mesh.triangles);
}

// The shell number of every point and one record a shell, into lent rooms; and how many shells there are.
pub fn shells(
    mesh: Mesh,
    numbers: &mut [u32],
    records: &mut [Shell],
    work: &mut [u32],
) -> Result<usize, Refusal>
    ensures { let after = left (told result) (granted_or 0 result) numbers.new work.new in
        Shells mesh.entry.points.now mesh.entry.triangles.now mesh.entry.marks.now numbers.old work.old records.old after records.new }
{
    let shells = list_numbers(mesh, numbers, work, records.len())?;
    fill(records, shells, numbers, mesh);
    Ok(shells)
}
