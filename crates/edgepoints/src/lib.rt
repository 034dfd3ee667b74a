// The point on a grid edge: its place, grid edge and mark, written to the front of their rooms.

#![tactic(auto)]

ghost use Rattle.std.specs.Prelude.{◌≡◌, [], ◌∷◌, true, ◌&&◌, ◌+◌, ◌*◌, ◌^◌, ◌<◌, ◌≤◌, eqb, length, get_or};
ghost use Rattle.laws.specs.Range.{one_if};
ghost use Rattle.grid.specs.Limits.{most_side};
ghost use Rattle.grid.specs.Grid.{axes, is_end, some_face, on_face_from};
ghost use Rattle.grid.specs.Work.{SidesFit, lent_samples};
ghost use Rattle.rows.specs.Rows.{size_of, grid_samples, next_number};
ghost use Rattle.edgepoints.specs.EdgePoint.{most_offset, axis_number, point_rooms, Standing, RoomsFor, Placeable, placed_from, with_placed, step_of, point_by, point_from};

use grid::limits::UNIT;
use rows::Sides;

// A sample by its number in the grid, its place among the samples lent, and its coordinates.
#[derive(Clone, Copy)]
pub struct Sample {
    pub s: usize,
    pub place: usize,
    pub x: usize,
    pub y: usize,
    pub z: usize,
}

// A point: its place, its grid edge and its mark.
#[derive(Clone, Copy)]
pub struct Point {
    pub x: u32,
    pub y: u32,
    pub z: u32,
    pub edge: u32,
    pub mark: u8,
}

// An axis, along which an edge leaves its sample.
#[derive(Clone, Copy, PartialEq, Eq)]
pub enum Axis {
    X,
    Y,
    Z,
}

impl Axis {
    fn number(self) -> u32
        ensures value { result ≡ axis_number self }
        ensures below { result < 3 }
    {
        match self {
            Axis::X => 0,
            Axis::Y => 1,
            Axis::Z => 2,
        }
    }

    // The direction along it.
    fn direction(self) -> u32
        ensures { result ≡ 2 ^ axis_number self }
    {
        match self {
            Axis::X => 1,
            Axis::Y => 2,
            Axis::Z => 4,
        }
    }
}

// Does an edge lie on an outer face across an axis? It stands at a coordinate, and runs so far along the axis.
fn is_outer(along: u32, c: usize, side: usize) -> bool
    requires c_lt_side { c < side }
    requires side_le_most_side { side ≤ most_side }
    ensures { result ≡ (eqb along 0 && is_end c side) }
{
    along == 0 && grid::outermost(c as u32, side as u32)
}

// The mark of a point whose edge leaves a sample in a direction (1 along x, 2 along y, 4 along z).
fn mark_of(sides: Sides, at: Sample, d: u32) -> u8
    requires { Standing sides at }
    ensures { result ≡ one_if (some_face (λ axis last. on_face_from axes (size_of sides) axis last at.s d)) }
{
    let across_x = is_outer(d % 2, at.x, sides.nx);
    let across_y = is_outer(d / 2 % 2, at.y, sides.ny);
    let across_z = is_outer(d / 4 % 2, at.z, sides.nz);
    u8::from(across_x || across_y || across_z)
}

// How much further on the next sample along an axis stands.
fn step_of(sides: Sides, axis: Axis) -> usize
    requires { SidesFit sides.nx sides.ny sides.nz }
    ensures { result ≡ step_of (size_of sides) (axis_number axis) }
{
    match axis {
        Axis::X => 1,
        Axis::Y => sides.nx,
        Axis::Z => sides.nx * sides.ny,
    }
}

// The point on the edge that leaves a sample along an axis, so far along it.
fn point_on(sides: Sides, at: Sample, axis: Axis, offset: u32) -> Point
    requires standing { Standing sides at }
    requires offset_le_most_offset { offset ≤ most_offset }
    ensures { result ≡ point_by (size_of sides) at.s (axis_number axis) offset }
{
    let d = axis.direction();
    Point {
        x: UNIT * (at.x as u32) + d % 2 * offset,
        y: UNIT * (at.y as u32) + d / 2 % 2 * offset,
        z: UNIT * (at.z as u32) + d / 4 % 2 * offset,
        edge: 3 * (at.s as u32) + axis.number(),
        mark: mark_of(sides, at, d),
    }
}

// Writes a point to the three rooms, at its number. They are lent one by one, as C lends them: were they fields of a struct, each function that takes it would promise besides that it holds the same three references.
fn write_point(p: Point, n: usize, points: &mut [u32], edges: &mut [u32], marks: &mut [u8])
    requires { RoomsFor (n + 1) (point_rooms points.old edges.old marks.old) }
    ensures { point_rooms points.new edges.new marks.new
        ≡ placed_from (point_rooms points.old edges.old marks.old) n (p ∷ []) }
{
    let first = 3 * n;
    points[first] = p.x;
    points[first + 1] = p.y;
    points[first + 2] = p.z;
    edges[n] = p.edge;
    marks[n] = p.mark;
}

// A sample by its place among those lent.
fn sample_at(kept: &[u32], samples: &[u16], place: usize) -> u16
    requires { place < length (lent_samples kept.now samples.now) }
    ensures { result ≡ get_or (lent_samples kept.now samples.now) place 0 }
{
    let many = kept.len();
    if place < many {
        return grid::sample_of(kept[place]) as u16;
    }
    samples[place - many]
}

// Writes the point of the edge that leaves a sample along an axis, if the edge is crossed, and answers the number after it.
pub fn place_edge(
    cut: bool,
    axis: Axis,
    sides: Sides,
    grey: u16,
    at: Sample,
    n: usize,
    kept: &[u32],
    samples: &[u16],
    points: &mut [u32],
    edges: &mut [u32],
    marks: &mut [u8],
) -> usize
    requires standing { Standing sides at }
    requires placeable { cut ≡ true → Placeable (size_of sides) (lent_samples kept.now samples.now) at.place (axis_number axis) n (point_rooms points.old edges.old marks.old) }
    ensures value { result ≡ next_number cut n }
    ensures marks_after { point_rooms points.new edges.new marks.new
        ≡ with_placed cut n (point_from (size_of sides) grey (grid_samples sides (lent_samples kept.now samples.now)) at.s (axis_number axis))
        (point_rooms points.old edges.old marks.old) }
{
    if !cut {
        return n;
    }
    let here = at.place;
    let other = here + step_of(sides, axis);
    let v0 = sample_at(kept, samples, here);
    let v1 = sample_at(kept, samples, other);
    let offset = grid::offset(v0, v1, grey);
    let p = point_on(sides, at, axis, offset);
    write_point(p, n, points, edges, marks);
    n + 1
}
