// The parts of a layer's call: what two layers have, counted, and written to the lent rooms.

#![tactic(auto)]

ghost use Rattle.std.specs.Prelude.{◌≡◌, ◌+◌, ◌*◌, ◌≤◌, ◌<◌, length};
ghost use Rattle.laws.specs.Room.{laid};
ghost use Rattle.laws.specs.Mesh.{flat};
ghost use Rattle.grid.specs.Refusal.{told};
ghost use Rattle.grid.specs.Work.{SidesFit, lent_samples};
ghost use Rattle.rows.specs.Rows.{Ready, size_of, words_above};
ghost use Rattle.edgepoints.specs.EdgePoint.{point_rooms, RoomsFor};
ghost use Rattle.pointplaces.specs.Places.{Given};
ghost use Rattle.layerparts.specs.Layer.{layer_triangles};
ghost use Rattle.layerparts.specs.Parts.{too_many, Framed, surely_fits, word_edges, triangle_count, refusal_for, lent_edges, points_laid};

pub mod counting;

use cube::MOST_CASE_TRIANGLES;
use grid::limits::{MOST_POINTS, MOST_TRIANGLES};
use grid::refusal::Refusal;
use layerstate::Head;
use pointplaces::places::place_layer;
use rows::Sides;
use triangles::Tables;

// Triangles of a cube at most.
const CASE_TRIANGLES: u32 = MOST_CASE_TRIANGLES as u32;

// The sides of a state's grid, of which the layers from `below` on are lent.
pub fn frame(head: Head, below: usize) -> Sides
    requires { SidesFit head.nx head.ny head.nz }
    ensures { Framed head below result }
{
    Sides::new(head.nx as usize, head.ny as usize, head.nz as usize, below)
}

// Are there more in the run than the limit, or more in this call than the room holds? The extractor has no run, and its test is one comparison without the sum.
pub fn exceeds(so_far: u32, count: u32, most: u32, room: usize) -> bool
    ensures { result ≡ too_many most so_far room count }
{
    most < so_far || most - so_far < count || room < count as usize
}

// Is there room for whatever a layer can have: three points a sample, and five triangles a cube, of which there are fewer than samples?
fn fits_surely(head: Head, sides: Sides, room: usize, triangle_room: usize) -> bool
    requires { SidesFit sides.nx sides.ny sides.nz }
    ensures { result ≡ surely_fits head sides room triangle_room }
{
    let each = (sides.nx * sides.ny) as u32;
    let triangles = CASE_TRIANGLES * each;
    !exceeds(head.points, 3 * each, MOST_POINTS, room)
        && !exceeds(head.triangles, triangles, MOST_TRIANGLES, triangle_room)
}

// Are the points of the first lent layer too many, or the triangles over it? They are counted only where they could be too many.
pub fn check_fits(
    head: Head,
    sides: Sides,
    masks: &[u64],
    room: usize,
    triangle_room: usize,
) -> Result<(), Refusal>
    requires ready { Ready sides sides.below masks.now }
    requires below_bound { sides.below + 1 < sides.nz }
    ensures { told result ≡ refusal_for head room triangle_room (length (word_edges sides masks.now)) (triangle_count sides masks.now) }
{
    if fits_surely(head, sides, room, triangle_room) {
        return Ok(());
    }
    let points = counting::count_points(sides, masks);
    if exceeds(head.points, points, MOST_POINTS, room) {
        return Err(Refusal::Points);
    }
    let counts = cube::counts();
    let none_found = [0u64; 0];
    let made = cuberows::count_layer(&counts, sides, sides.below, masks, &none_found);
    if exceeds(head.triangles, made, MOST_TRIANGLES, triangle_room) {
        return Err(Refusal::Triangles);
    }
    Ok(())
}

// The points of the first lent layer, to the front of their rooms. Answers how many they are.
pub fn hand_points(
    sides: Sides,
    grey: u16,
    kept: &[u32],
    samples: &[u16],
    masks: &[u64],
    points: &mut [u32],
    edges: &mut [u32],
    marks: &mut [u8],
) -> u32
    requires given { Given sides sides.below grey (lent_samples kept.now samples.now) masks.now }
    requires below_lt_nz { sides.below < sides.nz }
    requires rooms_for { RoomsFor (length (word_edges sides masks.now)) (point_rooms points.old edges.old marks.old) }
    ensures counted { result ≡ length (lent_edges sides grey (lent_samples kept.now samples.now)) }
    ensures laid { point_rooms points.new edges.new marks.new
        ≡ points_laid sides grey (lent_samples kept.now samples.now) (point_rooms points.old edges.old marks.old) }
{
    place_layer(
        sides,
        grey,
        sides.below,
        0,
        kept,
        samples,
        masks,
        points,
        edges,
        marks,
    ) as u32
}

// The triangles of the cubes over the first lent layer, to the front of their room, each corner as its grid edge's number. Answers how many they are.
pub fn hand_triangles(sides: Sides, masks: &[u64], triangles: &mut [u32]) -> u32
    requires ready { Ready sides sides.below masks.now }
    requires below_bound { sides.below + 1 < sides.nz }
    requires masks_in_bounds { 3 * triangle_count sides masks.now ≤ length triangles.old }
    ensures counted { result ≡ triangle_count sides masks.now }
    ensures laid { triangles.new ≡ laid (flat (layer_triangles (size_of sides) (words_above sides masks.now) sides.below)) triangles.old }
{
    let z = sides.below;
    let rows = cube::rows();
    let counts = cube::counts();
    let offsets = triangles::edge_offsets(sides.nx, sides.ny);
    let tables = Tables {
        rows: &rows,
        counts: &counts,
        offsets: &offsets,
    };
    let none_found = [0u64; 0];
    let numbers = [0u32; 0];
    let end = triangles::write_layer(tables, masks, &none_found, &numbers, triangles, sides, z, 0);
    (end / 3) as u32
}
