// The C functions that a viewer links on the text of a mesh, which is written and read back (document 02 (iii)). Each is a thin call of the one below it.

#![tactic(auto)]

ghost use Rattle.std.specs.Prelude.{◌≡◌, ◌/◌, length as length_of};
ghost use Rattle.writing.specs.Writing.{outcome};
ghost use Rattle.meshtext.specs.MeshText.{mesh_written, Holds};
ghost use Rattle.meshread.specs.Promise.{Reads};
ghost use Rattle.reader.specs.Promise.{rooms, left};
ghost use Rattle.reader.specs.Counts.{counts_left, counts_answered};

use grid::refusal::{told, told_line};
use meshrows::Counts;
use records::Shell;

// What a refusal counts.
const NO_MESH: Counts = Counts {
    points: 0,
    triangles: 0,
    shells: 0,
};

// The text of a mesh and its records, one a shell, to the front of the lent room. Answers 0 if granted, else the refusal's number; the length of the text
// is 0 after a refusal.
#[unsafe(no_mangle)]
pub extern "C" fn tholbrina_write(
    points: &[u32],
    edges: &[u32],
    marks: &[u8],
    triangles: &[u32],
    records: &[Shell],
    text: &mut [u8],
    length: &mut usize,
) -> u32
    ensures { let shells = length_of records.now in
        let after = outcome result length.new text.new in
        Holds (length_of marks.now) (length_of triangles.now / 3) shells (length_of text.old) result
        × (after ≡ mesh_written points.now edges.now marks.now triangles.now records.now shells text.old) }
{
    let written = meshtext::write_mesh(
        points,
        edges,
        marks,
        triangles,
        records,
        records.len(),
        text,
    );
    *length = written.unwrap_or(0);
    told(written)
}

// A mesh read back from its text, into lent rooms. Answers 0 if granted, else the refusal's number; the line is that of a refusal for a line, else 0, and the
// counts are 0 after a refusal.
#[unsafe(no_mangle)]
pub extern "C" fn tholbrina_read(
    text: &[u8],
    points: &mut [u32],
    edges: &mut [u32],
    marks: &mut [u8],
    triangles: &mut [u32],
    records: &mut [Shell],
    work: &mut [u32],
    line: &mut u64,
    point_count: &mut u32,
    triangle_count: &mut u32,
    shell_count: &mut u32,
) -> u32
    ensures { let before = rooms points.old edges.old marks.old triangles.old records.old work.old in
        let after = rooms points.new edges.new marks.new triangles.new records.new work.new in
        Reads text.now before (left result line.new point_count.new triangle_count.new shell_count.new after) }
{
    let read = reader::read_mesh(text, points, edges, marks, triangles, records, work);
    let counts = read.unwrap_or(NO_MESH);
    *line = told_line(read);
    *point_count = counts.points;
    *triangle_count = counts.triangles;
    *shell_count = counts.shells;
    told(read)
}

// The numbers of line 1 of a mesh's text. Answers 0, or 15 for a line that is not of that form; the numbers are 0 then.
#[unsafe(no_mangle)]
pub extern "C" fn tholbrina_read_counts(
    text: &[u8],
    points: &mut u32,
    triangles: &mut u32,
    shells: &mut u32,
) -> u32
    ensures { counts_left result points.new triangles.new shells.new ≡ counts_answered text.now }
{
    let read = reader::read_counts(text);
    let counts = read.unwrap_or(NO_MESH);
    *points = counts.points;
    *triangles = counts.triangles;
    *shells = counts.shells;
    told(read)
}
