// Trying many grey values on one volume: the summary of the samples built, and the mesh at one grey value by it.

#![tactic(auto)]

ghost use Rattle.std.specs.Prelude.{◌≡◌, true, length};
ghost use Rattle.grid.specs.Grid.{axes, sample_count, edge_count};
ghost use Rattle.grid.specs.Refusal.{told};
ghost use Rattle.grid.specs.Work.{size, SidesFit};
ghost use Rattle.summary.specs.Blocks.{is_summary};
ghost use Rattle.extract.specs.Promise.{rooms};
ghost use Rattle.query.specs.Promise.{built_left, query_answered, Builds, Queries, Answers};

use grid::refusal::{Refusal, refused_later};
use steps::FOUND_WORDS;
use summarylist::SUMMARY;

// How many points and triangles a mesh has, and how many blocks were looked at for it.
#[derive(Clone, Copy)]
pub struct Queried {
    pub points: u32,
    pub triangles: u32,
    pub blocks: u32,
}

// The summary of the samples, into a room of its length.
pub fn build(nx: u32, ny: u32, nz: u32, samples: &[u16], room: &mut [u16]) -> Result<(), Refusal>
    ensures { Builds nx ny nz samples.now room.old (built_left (told result) room.new) }
{
    if !grid::sides_fit(nx, ny, nz) {
        return Err(Refusal::Side);
    }
    let x = nx as usize;
    let y = ny as usize;
    let z = nz as usize;
    if samples.len() != x * (y * z) {
        return Err(Refusal::Samples);
    }
    if room.len() != SUMMARY {
        return Err(Refusal::Room);
    }
    summarylist::build(x, y, z, samples, room);
    Ok(())
}

// The steps look at the summary alone; the mesh is made where they found cubes.
fn answered(
    nx: usize,
    ny: usize,
    nz: usize,
    grey: u16,
    samples: &[u16],
    summary: &[u16],
    points: &mut [u32],
    edges: &mut [u32],
    marks: &mut [u8],
    triangles: &mut [u32],
    work: &mut [u32],
) -> Result<Queried, Refusal>
    requires sides_fit { SidesFit nx ny nz }
    requires samples_len { length samples.now ≡ sample_count (size nx ny nz) }
    requires work_len { length work.old ≡ edge_count axes (size nx ny nz) }
    requires summary_value { is_summary (size nx ny nz) samples.now summary.now ≡ true }
    ensures { let before = rooms points.old edges.old marks.old triangles.old work.old in
        let after = rooms points.new edges.new marks.new triangles.new work.new in
        Answers nx ny nz grey samples.now summary.now before (query_answered result after) }
{
    let mut found = [0u64; FOUND_WORDS];
    let blocks = steps::look_at_all(summary, grey, &mut found);
    let mesh = extract::measured(
        nx, ny, nz, grey, samples, &found, points, edges, marks, triangles, work,
    )?;
    Ok(Queried {
        points: mesh.points,
        triangles: mesh.triangles,
        blocks,
    })
}

// The mesh of a grid at one grey value by the summary of its samples, into lent rooms.
pub fn query(
    nx: u32,
    ny: u32,
    nz: u32,
    grey: u16,
    samples: &[u16],
    summary: &[u16],
    points: &mut [u32],
    edges: &mut [u32],
    marks: &mut [u8],
    triangles: &mut [u32],
    work: &mut [u32],
) -> Result<Queried, Refusal>
    ensures { let before = rooms points.old edges.old marks.old triangles.old work.old in
        let after = rooms points.new edges.new marks.new triangles.new work.new in
        Queries nx ny nz grey samples.now summary.now before (query_answered result after) }
{
    if !grid::sides_fit(nx, ny, nz) {
        return Err(Refusal::Side);
    }
    let x = nx as usize;
    let y = ny as usize;
    let z = nz as usize;
    let count = x * (y * z);
    if samples.len() != count {
        return Err(Refusal::Samples);
    }
    if work.len() != 3 * count {
        return Err(Refusal::Room);
    }
    if !summarylist::is_summary(x, y, z, samples, summary) {
        return refused_later(Refusal::Summary, work);
    }
    answered(
        x, y, z, grey, samples, summary, points, edges, marks, triangles, work,
    )
}
