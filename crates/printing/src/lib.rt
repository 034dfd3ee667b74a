// A small mesh, printed: smoothed, its shells listed, and written with their records. All rooms are local.

#![tactic(auto)]

ghost use Rattle.std.specs.Prelude.{◌≤◌, length, take};
ghost use Rattle.grid.specs.Limits.{most_rounds, most_weight};
ghost use Rattle.grid.specs.Refusal.{told, granted_or};
ghost use Rattle.printing.specs.Prints.{after_rounds, Prints};
ghost use Rattle.printing.specs.SmallMesh.{mesh_of, SmallMesh};
ghost use Rattle.printing.specs.Listed.{ListsAndWrites};
ghost use Rattle.writing.specs.Writing.{outcome};

pub mod zeros;

use grid::refusal::Refusal;
use mesh::Mesh;
use zeros::{MOST_LISTING, MOST_SMALL_COORDINATES, MOST_SMALL_POINTS, MOST_SMOOTHING};

// Lists the shells of a mesh into an array of records, and writes its text with them. This is the only function here that holds records in a list: whatever calls
// it meets plain numbers.
fn write_records(
    mesh: Mesh,
    edges: &[u32],
    numbers: &mut [u32],
    work: &mut [u32],
    output: &mut [u8],
) -> Result<usize, Refusal>
    ensures { let after = outcome (told result) (granted_or 0 result) output.new in
        ListsAndWrites mesh.entry.points.now edges.now mesh.entry.marks.now mesh.entry.triangles.now numbers.old work.old output.old
        numbers.new work.new after }
{
    let mut records = [records::blank(); MOST_SMALL_POINTS];
    let listed = shells::shells(mesh, numbers, &mut records, work);
    let shells = listed.unwrap_or(0);
    meshtext::write_mesh(
        mesh.points,
        edges,
        mesh.marks,
        mesh.triangles,
        &records,
        shells,
        output,
    )
}

// Lists the shells of a mesh and writes its text. Answers the text's length.
fn write_listed(mesh: Mesh, edges: &[u32], output: &mut [u8]) -> usize
    requires { SmallMesh mesh.points.now edges.now mesh.marks.now mesh.triangles.now (length output.old) }
    ensures inside { result ≤ length output.new }
    ensures text { Prints (mesh_of mesh.entry.points.now mesh.entry.triangles.now mesh.entry.marks.now) edges.now (take result output.new) }
{
    let v = mesh.marks.len();
    let mut numbers: [u32; MOST_SMALL_POINTS] = zeros::room(0);
    let mut work: [u32; MOST_LISTING] = zeros::room(0);
    write_records(mesh, edges, &mut numbers[..v], &mut work[..2 * v], output).unwrap_or(0)
}

// Smooths a mesh and writes its text.
pub fn write_smoothed(
    mesh: Mesh,
    edges: &[u32],
    rounds: u32,
    weight: u32,
    output: &mut [u8],
) -> usize
    requires small_mesh { SmallMesh mesh.points.now edges.now mesh.marks.now mesh.triangles.now (length output.old) }
    requires rounds_le_most_rounds { (rounds ≤ most_rounds) × (weight ≤ most_weight) }
    ensures inside { result ≤ length output.new }
    ensures text { let lent = mesh_of mesh.entry.points.now mesh.entry.triangles.now mesh.entry.marks.now in
        Prints (after_rounds rounds weight lent) edges.now (take result output.new) }
{
    let v = mesh.marks.len();
    let t = mesh.triangles.len() / 3;
    let mut smoothed: [u32; MOST_SMALL_COORDINATES] = zeros::room(0);
    let mut work: [u32; MOST_SMOOTHING] = zeros::room(0);
    smooth::smooth(
        mesh,
        rounds,
        weight,
        &mut smoothed[..3 * v],
        &mut work[..6 * t + 5 * v + 1],
    )
    .unwrap();
    let moved = Mesh {
        points: &smoothed[..3 * v],
        ..mesh
    };
    write_listed(moved, edges, output)
}
