// What the reader decides before it fills a result room: the refusals in their order, or where the mesh is found (document 02 (iii)).

#![tactic(auto)]

ghost use Rattle.std.specs.Prelude.{◌≡◌, ◌^◌, ◌<◌, ◌≤◌, length, drop, replicate, Err};
ghost use Rattle.grid.specs.Limits.{most_points, most_triangles};
ghost use Rattle.grid.specs.Refusal.{told};
ghost use Rattle.columns.specs.Room.{work_length, points_in, marks_in, triangles_in};
ghost use Rattle.mesh.specs.Check.{mesh_number};
ghost use Rattle.meshread.specs.Mesh.{read_lines_of};
ghost use Rattle.meshread.specs.Promise.{room_number, with_lines};
ghost use Rattle.meshform.specs.Form.{counts_for};
ghost use Rattle.judge.specs.Judged.{Standing, JudgesShells, JudgesMesh, JudgesSaid, lengths_for, Judges};

use columns::Parts;
use grid::limits::{MOST_POINTS, MOST_TRIANGLES};
use grid::refusal::{Refusal, refused_later};
use meshform::take_lines;
use meshrows::{Counts, read_counts};
use roommesh::{mesh_number, number_shells};
use sameshells::same_shells;

// A mesh that is granted: line 1's numbers, and where the lines of the points and of the shells begin.
#[derive(Clone, Copy)]
pub struct Judged {
    pub counts: Counts,
    pub points_at: usize,
    pub shells_at: usize,
}

// Refuses with the first of 4, 5, 11 and 3 that holds of line 1's numbers and the rooms.
#[tactic(auto, unfolding(meshread::specs::Promise::room_number))]
fn check_rooms(
    parts: Parts,
    shells: usize,
    points: usize,
    edges: usize,
    marks: usize,
    triangles: usize,
    records: usize,
    work: usize,
) -> Result<(), Refusal>
    ensures { told result ≡ room_number (counts_for parts.points parts.triangles shells) (lengths_for points edges marks triangles records work) }
{
    let point_room = (MOST_POINTS as usize).min((points / 3).min(edges.min(marks)));
    if point_room < parts.points {
        return Err(Refusal::Points);
    }
    let triangle_room = (MOST_TRIANGLES as usize).min(triangles / 3);
    if triangle_room < parts.triangles {
        return Err(Refusal::Triangles);
    }
    if records < shells {
        return Err(Refusal::Shells);
    }
    if work != parts.work_length() {
        return Err(Refusal::Room);
    }
    Ok(())
}

// The shells of a mesh that passed 7 to 9: they are those of the lines, or 16.
fn judge_shells(
    input: &[u8],
    parts: Parts,
    shells: usize,
    from: usize,
    next: usize,
    work: &mut [u32],
) -> Result<Judged, Refusal>
    requires { Standing parts.points parts.triangles shells input.now from next work.old × (mesh_number (points_in parts.points work.old) (triangles_in parts.points parts.triangles work.old) (marks_in parts.points work.old) ≡ 0) }
    ensures { JudgesShells parts.points parts.triangles shells input.now from next work.old result work.new }
{
    let own = number_shells(work, parts);
    if own != shells {
        return refused_later(Refusal::OtherShells, work);
    }
    if !same_shells(input, next, shells, work, parts) {
        return refused_later(Refusal::OtherShells, work);
    }
    let counts = Counts {
        points: parts.points as u32,
        triangles: parts.triangles as u32,
        shells: shells as u32,
    };
    Ok(Judged {
        counts,
        points_at: from,
        shells_at: next,
    })
}

// 7, 8 and 9, and then the shells.
fn judge_mesh(
    input: &[u8],
    parts: Parts,
    shells: usize,
    from: usize,
    next: usize,
    work: &mut [u32],
) -> Result<Judged, Refusal>
    requires { Standing parts.points parts.triangles shells input.now from next work.old }
    ensures { JudgesMesh parts.points parts.triangles shells input.now from next work.old result work.new }
{
    if let Err(refusal) = mesh_number(work, parts) {
        return refused_later(refusal, work);
    }
    judge_shells(input, parts, shells, from, next, work)
}

// 15 for the lines behind line 1, and then the mesh that they say.
fn judge_lines(
    input: &[u8],
    parts: Parts,
    shells: usize,
    from: usize,
    work: &mut [u32],
) -> Result<Judged, Refusal>
    requires { (parts.points ≤ most_points) × (parts.triangles ≤ most_triangles) × (shells < 2 ^ 32) × (length work.old ≡ work_length parts.points parts.triangles) }
    ensures { JudgesSaid (with_lines (read_lines_of (counts_for parts.points parts.triangles shells) (drop from input.now))) input.now work.old result work.new }
{
    match take_lines(input, from, parts, shells, work) {
        Ok(next) => judge_mesh(input, parts, shells, from, next, work),
        Err(line) => refused_later(Refusal::MeshLine(line), work),
    }
}

// The refusals in their order, where the rooms have these lengths; or where the mesh is found.
pub fn judge(
    input: &[u8],
    points: usize,
    edges: usize,
    marks: usize,
    triangles: usize,
    records: usize,
    work: &mut [u32],
) -> Result<Judged, Refusal>
    ensures { Judges input.now (lengths_for points edges marks triangles records (length work.old)) work.old result work.new }
{
    let Some((counts, next)) = read_counts(input) else {
        return Err(Refusal::MeshLine(1));
    };
    let parts = Parts {
        points: counts.points as usize,
        triangles: counts.triangles as usize,
    };
    let shells = counts.shells as usize;
    check_rooms(
        parts,
        shells,
        points,
        edges,
        marks,
        triangles,
        records,
        work.len(),
    )?;
    judge_lines(input, parts, shells, next, work)
}
