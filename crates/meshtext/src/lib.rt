// The text of a mesh: its points, triangles and shells.

#![tactic(auto)]

ghost use Rattle.std.specs.Prelude.{◌≡◌, cond, ◌*◌, ◌/◌, ◌≤◌, length};
ghost use Rattle.std.proofs.lemmas.List.Edits.{sets};
ghost use Rattle.grid.specs.Limits.{most_points};
ghost use Rattle.grid.specs.Refusal.{told, granted_or};
ghost use Rattle.shelllines.specs.ShellLines.{longest_shell};
ghost use Rattle.writing.specs.Writing.{outcome};
ghost use Rattle.meshtext.specs.MeshText.{mesh_counts, front_text, longest_front, lists_fit, Holds, mesh_written};
ghost use Rattle.meshtext.specs.Front.{FrontFits, front_written};

use grid::limits::MOST_POINTS;
use grid::refusal::Refusal;
use meshlines::{points_length, triangles_length, write_points, write_triangles};
use records::Shell;
use shelllines::{shells_length, write_shells};
use writing::{fields_length, write_lettered};

// Do the lists fit each other? No mesh has more shells than points.
fn lists_fit(
    points: usize,
    edges: usize,
    v: usize,
    triangles: usize,
    records: usize,
    shells: usize,
) -> bool
    ensures { result ≡ lists_fit points edges v triangles records shells }
{
    mesh::lengths_fit(points, triangles, v)
        && edges == v
        && shells <= records
        && shells <= MOST_POINTS as usize
}

// How many bytes the lines before those of the shells take.
fn front_length(
    counts: &[u32],
    points: &[u32],
    edges: &[u32],
    marks: &[u8],
    triangles: &[u32],
) -> usize
    requires { FrontFits points.now edges.now marks.now triangles.now × (length counts.now ≡ 3) }
    ensures small { result ≤ longest_front (length marks.now) (length triangles.now / 3) }
    ensures length { result ≡ length (front_text counts.now points.now edges.now marks.now triangles.now) }
{
    let head = 2 + fields_length(counts);
    let middle = points_length(points, edges, marks, marks.len());
    head + middle + triangles_length(triangles, triangles.len() / 3)
}

// Writes the lines before those of the shells to the front of a room that holds them.
fn write_lines(
    counts: &[u32],
    points: &[u32],
    edges: &[u32],
    marks: &[u8],
    triangles: &[u32],
    room: &mut [u8],
)
    requires front_fits { FrontFits points.now edges.now marks.now triangles.now }
    requires triangles_in_bounds { length (front_text counts.now points.now edges.now marks.now triangles.now) ≤ length room.old }
    ensures { room.new ≡ sets room.old 0 (front_text counts.now points.now edges.now marks.now triangles.now) }
{
    let behind_counts = write_lettered(b'M', counts, room, 0);
    let behind_points = write_points(points, edges, marks, marks.len(), room, behind_counts);
    write_triangles(triangles, triangles.len() / 3, room, behind_points);
}

// Writes the lines before those of the shells, which take so many bytes more, and answers their length. A room that is too short for all is refused with 3, and stays.
fn write_front(
    points: &[u32],
    edges: &[u32],
    marks: &[u8],
    triangles: &[u32],
    shells: usize,
    more: usize,
    room: &mut [u8],
) -> Result<usize, Refusal>
    requires { FrontFits points.now edges.now marks.now triangles.now × (shells ≤ most_points) × (more ≤ longest_shell * shells) }
    ensures { let text = front_text (mesh_counts marks.now triangles.now shells) points.now edges.now marks.now triangles.now in
        Holds (length marks.now) (length triangles.now / 3) shells (length room.old) (told result)
        × (outcome (told result) (granted_or 0 result) room.new ≡ front_written text more room.old) }
{
    let counts = [
        marks.len() as u32,
        (triangles.len() / 3) as u32,
        shells as u32,
    ];
    let length = front_length(&counts, points, edges, marks, triangles);
    if room.len() < length + more {
        return Err(Refusal::Room);
    }
    write_lines(&counts, points, edges, marks, triangles, room);
    Ok(length)
}

// Writes the text of a mesh and the first of the lent records, one a shell, to the front of the room, and answers its length.
// Lists that do not fit are refused with 6, and a room that is too short with 3; a refusal leaves the room.
pub fn write_mesh(
    points: &[u32],
    edges: &[u32],
    marks: &[u8],
    triangles: &[u32],
    records: &[Shell],
    shells: usize,
    room: &mut [u8],
) -> Result<usize, Refusal>
    ensures { let after = outcome (told result) (granted_or 0 result) room.new in
        Holds (length marks.now) (length triangles.now / 3) shells (length room.old) (told result)
        × (after ≡ mesh_written points.now edges.now marks.now triangles.now records.now shells room.old) }
{
    let fit = lists_fit(
        points.len(),
        edges.len(),
        marks.len(),
        triangles.len(),
        records.len(),
        shells,
    );
    if !fit {
        return Err(Refusal::Lengths);
    }
    let more = shells_length(records, shells);
    let front = write_front(points, edges, marks, triangles, shells, more, room)?;
    Ok(write_shells(records, shells, room, front))
}
