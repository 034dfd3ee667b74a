// Line 1 of a mesh's text, and the mesh read back from it into lent rooms (document 02 (iii)).

#![tactic(auto)]

ghost use Rattle.std.specs.Prelude.{◌≡◌, IfErr};
ghost use Rattle.grid.specs.Refusal.{mesh_line};
ghost use Rattle.meshread.specs.Promise.{Reads};
ghost use Rattle.reader.specs.Counts.{counts_told, counts_answered};
ghost use Rattle.reader.specs.Promise.{rooms, answered};
ghost use Rattle.reader.specs.Parts.{ListsRead};

use filling::fill_lists;
use grid::refusal::Refusal;
use judge::{Judged, judge};
use meshrows::Counts;
use readrecords::fill_records;
use records::Shell;

// What line 1 says, so that a caller can size the rooms of `read_mesh`.
#[tactic(auto, unfolding(crate::specs::Counts::counts_found))]
pub fn read_counts(input: &[u8]) -> Result<Counts, Refusal>
    ensures counts { counts_told result ≡ counts_answered input.now }
    ensures line { IfErr result (λ e. mesh_line e ≡ 1) }
{
    match meshrows::read_counts(input) {
        Some((counts, _)) => Ok(counts),
        None => Err(Refusal::MeshLine(1)),
    }
}

// All is decided before a result room is written to; if granted, points, grid edges, marks and triangles go into their rooms.
fn read_lists(
    input: &[u8],
    points: &mut [u32],
    edges: &mut [u32],
    marks: &mut [u8],
    triangles: &mut [u32],
    records: usize,
    work: &mut [u32],
) -> Result<Judged, Refusal>
    ensures { ListsRead input.now records points.old edges.old marks.old triangles.old work.old result points.new edges.new marks.new triangles.new work.new }
{
    let judged = judge(
        input,
        points.len(),
        edges.len(),
        marks.len(),
        triangles.len(),
        records,
        work,
    )?;
    fill_lists(input, judged, points, edges, marks, triangles, work);
    Ok(judged)
}

// Reads a mesh and its records, and answers the numbers of line 1. A refusal leaves the result rooms as they were.
pub fn read_mesh(
    input: &[u8],
    points: &mut [u32],
    edges: &mut [u32],
    marks: &mut [u8],
    triangles: &mut [u32],
    records: &mut [Shell],
    work: &mut [u32],
) -> Result<Counts, Refusal>
    ensures { let before = rooms points.old edges.old marks.old triangles.old records.old work.old in
        let after = rooms points.new edges.new marks.new triangles.new records.new work.new in
        Reads input.now before (answered result after) }
{
    let judged = read_lists(input, points, edges, marks, triangles, records.len(), work)?;
    fill_records(
        records,
        judged.counts.shells as usize,
        input,
        judged.shells_at,
    );
    Ok(judged.counts)
}
