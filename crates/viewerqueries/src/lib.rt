// The C functions of a summary and of the queries by it. Each is a thin call of the one below it.

#![tactic(auto)]

ghost use Rattle.extract.specs.Promise.{rooms};
ghost use Rattle.query.specs.Promise.{built_left, query_left, Builds, Queries};

use grid::refusal::told;
use query::Queried;

// What a refusal counts.
const NO_MESH: Queried = Queried {
    points: 0,
    triangles: 0,
    blocks: 0,
};

// The summary of the samples, into a room of its length. Answers 0 if granted, else the refusal's number.
#[unsafe(no_mangle)]
pub extern "C" fn tholbrina_summary(
    nx: u32,
    ny: u32,
    nz: u32,
    samples: &[u16],
    summary: &mut [u16],
) -> u32
    ensures { Builds nx ny nz samples.now summary.old (built_left result summary.new) }
{
    told(query::build(nx, ny, nz, samples, summary))
}

// The mesh of a grid at one grey value by the summary of its samples, into lent rooms. Answers 0 if granted, else the refusal's number; the counts are 0 after a refusal.
#[unsafe(no_mangle)]
pub extern "C" fn tholbrina_query(
    nx: u32,
    ny: u32,
    nz: u32,
    grey: u16,
    samples: &[u16],
    summary: &[u16],
    points: &mut [u32],
    edges: &mut [u32],
    marks: &mut [u8],
    triangles: &mut [u32],
    work: &mut [u32],
    point_count: &mut u32,
    triangle_count: &mut u32,
    block_count: &mut u32,
) -> u32
    ensures { let before = rooms points.old edges.old marks.old triangles.old work.old in
        let after = rooms points.new edges.new marks.new triangles.new work.new in
        Queries nx ny nz grey samples.now summary.now before
        (query_left result point_count.new triangle_count.new block_count.new after) }
{
    let done = query::query(
        nx, ny, nz, grey, samples, summary, points, edges, marks, triangles, work,
    );
    let counts = done.unwrap_or(NO_MESH);
    *point_count = counts.points;
    *triangle_count = counts.triangles;
    *block_count = counts.blocks;
    told(done)
}
