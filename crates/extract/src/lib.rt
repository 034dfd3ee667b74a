// The extractor: a grid of samples and one grey value in, a mesh with numbered points out.

#![tactic(auto)]

ghost use Rattle.std.specs.Prelude.{◌≡◌, min, ltb, length};
ghost use Rattle.grid.specs.Grid.{axes, sample_count, edge_count, is_above_grey};
ghost use Rattle.grid.specs.Mode.{cubes};
ghost use Rattle.grid.specs.Work.{size, SidesFit};
ghost use Rattle.cuberows.specs.Cubes.{FoundCubes};
ghost use Rattle.extract.specs.Promise.{rooms, answered, Extracts, Measures};

use grid::limits::{MOST_POINTS, MOST_TRIANGLES};
use grid::refusal::{Refusal, refused_later};
use masks::MOST_WORDS;
use rows::Sides;

// How many points and triangles a mesh has.
#[derive(Clone, Copy)]
pub struct Extracted {
    pub points: u32,
    pub triangles: u32,
}

// Are there more than the limit, or more than the room holds?
fn exceeds(count: u32, most: u32, room: usize) -> bool
    ensures { result ≡ ltb (min most room) count }
{
    most < count || room < count as usize
}

// Points and triangles are counted before anything is written, so that a refusal leaves the rooms. A query lends the words of the cubes that its steps found, the extractor none; the outcome is the same.
pub fn measured(
    nx: usize,
    ny: usize,
    nz: usize,
    grey: u16,
    samples: &[u16],
    found: &[u64],
    points: &mut [u32],
    edges: &mut [u32],
    marks: &mut [u8],
    triangles: &mut [u32],
    work: &mut [u32],
) -> Result<Extracted, Refusal>
    requires sides_fit { SidesFit nx ny nz }
    requires samples_len { length samples.now ≡ sample_count (size nx ny nz) }
    requires work_len { length work.old ≡ edge_count axes (size nx ny nz) }
    requires found_cubes { FoundCubes (size nx ny nz) (is_above_grey grey samples.now) found.now }
    ensures { let before = rooms points.old edges.old marks.old triangles.old work.old in
        let after = rooms points.new edges.new marks.new triangles.new work.new in
        Measures cubes nx ny nz grey samples.now before (answered result after) }
{
    let sides = Sides::new(nx, ny, nz, 0);
    let mut masks = [0u64; MOST_WORDS];
    let none_kept = [0u32; 0];
    masks::fill(&none_kept, samples, nx, ny * nz, grey, &mut masks);
    let numbered = pointnumbers::number(sides, &masks, work);
    let room = (points.len() / 3).min(edges.len().min(marks.len()));
    if exceeds(numbered, MOST_POINTS, room) {
        return refused_later(Refusal::Points, work);
    }
    let made = cuberows::count(sides, &masks, found);
    if exceeds(made, MOST_TRIANGLES, triangles.len() / 3) {
        return refused_later(Refusal::Triangles, work);
    }
    pointplaces::place(sides, grey, samples, &masks, points, edges, marks);
    triangles::write(sides, &masks, found, work, triangles);
    rooms::clear(work);
    Ok(Extracted {
        points: numbered,
        triangles: made,
    })
}

// The mesh of a grid at one grey value, into lent rooms.
pub fn extract(
    nx: u32,
    ny: u32,
    nz: u32,
    grey: u16,
    samples: &[u16],
    points: &mut [u32],
    edges: &mut [u32],
    marks: &mut [u8],
    triangles: &mut [u32],
    work: &mut [u32],
) -> Result<Extracted, Refusal>
    ensures { let before = rooms points.old edges.old marks.old triangles.old work.old in
        let after = rooms points.new edges.new marks.new triangles.new work.new in
        Extracts cubes nx ny nz grey samples.now before (answered result after) }
{
    if !grid::sides_fit(nx, ny, nz) {
        return Err(Refusal::Side);
    }
    let x = nx as usize;
    let y = ny as usize;
    let z = nz as usize;
    let count = x * (y * z);
    if samples.len() != count {
        return Err(Refusal::Samples);
    }
    if work.len() != 3 * count {
        return Err(Refusal::Room);
    }
    let none_found = [0u64; 0];
    measured(
        x,
        y,
        z,
        grey,
        samples,
        &none_found,
        points,
        edges,
        marks,
        triangles,
        work,
    )
}
