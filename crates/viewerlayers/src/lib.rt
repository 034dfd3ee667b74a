// The C functions of a run of layers. Each is a thin call of the one below it.

#![tactic(auto)]

ghost use Rattle.std.specs.Prelude.{[]};
ghost use Rattle.layers.specs.Promise.{rooms, open_left, left, Opens, Layers, Closes};

use grid::refusal::told;
use layers::Answered;

// What a refusal hands out.
const NOTHING: Answered = Answered {
    points: 0,
    triangles: 0,
};

// Opens a run. Answers 0 if granted, else the refusal's number.
#[unsafe(no_mangle)]
pub extern "C" fn tholbrina_layers_open(
    nx: u32,
    ny: u32,
    nz: u32,
    grey: u16,
    state: &mut [u32],
) -> u32
    ensures { Opens nx ny nz grey state.old (open_left result state.new) }
{
    told(layers::open(nx, ny, nz, grey, state))
}

// Takes a layer, and hands out the points of the layer below and the triangles of the cubes between. Answers 0 if granted, else the refusal's number; the counts are 0 after a refusal.
#[unsafe(no_mangle)]
pub extern "C" fn tholbrina_layers_next(
    layer: &[u16],
    state: &mut [u32],
    points: &mut [u32],
    edges: &mut [u32],
    marks: &mut [u8],
    triangles: &mut [u32],
    point_count: &mut u32,
    triangle_count: &mut u32,
) -> u32
    ensures { let before = rooms points.old edges.old marks.old triangles.old in
        let after = rooms points.new edges.new marks.new triangles.new in
        Layers layer.now before state.old (left result point_count.new triangle_count.new after state.new) }
{
    let done = layers::next(layer, state, points, edges, marks, triangles);
    let counts = done.unwrap_or(NOTHING);
    *point_count = counts.points;
    *triangle_count = counts.triangles;
    told(done)
}

// Closes a run, and hands out the points of the last layer. Answers 0 if granted, else the refusal's number; the count is 0 after a refusal.
#[unsafe(no_mangle)]
pub extern "C" fn tholbrina_layers_close(
    state: &mut [u32],
    points: &mut [u32],
    edges: &mut [u32],
    marks: &mut [u8],
    point_count: &mut u32,
) -> u32
    ensures { let before = rooms points.old edges.old marks.old [] in
        let after = rooms points.new edges.new marks.new [] in
        Closes before state.old (left result point_count.new 0 after state.new) }
{
    let done = layers::close(state, points, edges, marks);
    *point_count = done.unwrap_or(0);
    told(done)
}
