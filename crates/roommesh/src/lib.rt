// A mesh in the reader's work room: its checks 7 to 9, and the shell numbers of its points.

#![tactic(auto)]

ghost use Rattle.std.specs.Prelude.{◌≡◌, ◌+◌, ◌*◌, ◌≤◌, length};
ghost use Rattle.grid.specs.Limits.{most_points, most_triangles};
ghost use Rattle.grid.specs.Refusal.{told};
ghost use Rattle.mesh.specs.Check.{mesh_number};
ghost use Rattle.laws.specs.Part.{part_of};
ghost use Rattle.columns.specs.Room.{marks_at, triangles_at};
ghost use Rattle.roommesh.specs.Numbered.{Numberable, ShellsNumbered};

use columns::Parts;
use grid::limits::MOST_COORDINATE;
use grid::refusal::Refusal;

// The first of the refusals 7, 8 and 9 that holds of the points and triangles in the room.
#[tactic(auto, unfolding(mesh::specs::Check::mesh_number, mesh::specs::Check::lengths_fit), using(std::proofs::lemmas::Bool::Decides::nat_tests))]
pub fn mesh_number(work: &[u32], parts: Parts) -> Result<(), Refusal>
    requires { (parts.points ≤ most_points) × (parts.triangles ≤ most_triangles) × (4 * parts.points + 3 * parts.triangles ≤ length work.now) }
    ensures { told result ≡ mesh_number (part_of 0 (3 * parts.points) work.now) (part_of (triangles_at parts.points) (3 * parts.triangles) work.now) (part_of (marks_at parts.points) parts.points work.now) }
{
    let marks = parts.marks_at();
    let corners = parts.triangles_at();
    let end = parts.numbers_at();
    if !mesh::triangles_fit(&work[corners..end], parts.points) {
        return Err(Refusal::Corners);
    }
    if !mesh::all_within(&work[..marks], MOST_COORDINATE) {
        return Err(Refusal::Coordinates);
    }
    if !mesh::all_within(&work[marks..corners], 1) {
        return Err(Refusal::Marks);
    }
    Ok(())
}

// The shell numbers of the points into their part of the room, and how many shells there are.
pub fn number_shells(work: &mut [u32], parts: Parts) -> usize
    requires { Numberable parts.points parts.triangles work.old }
    ensures { ShellsNumbered parts.points parts.triangles work.old result work.new }
{
    let (mesh, rest) = work.split_at_mut(parts.numbers_at());
    let numbers = &mut rest[..parts.points];
    sets::unite(numbers, &mesh[parts.triangles_at()..], parts.points);
    let shells = sets::count(numbers, parts.points);
    sets::rank(numbers);
    shells
}
