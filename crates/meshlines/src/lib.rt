// The lines of a mesh's points and triangles, measured and written.

#![tactic(auto)]

ghost use Rattle.std.specs.Prelude.{◌≡◌, ◌+◌, ◌*◌, ◌≤◌, ◌<◌, length};
ghost use Rattle.std.proofs.lemmas.List.Edits.{sets};
ghost use Rattle.grid.specs.Limits.{most_points, most_triangles};
ghost use Rattle.lines.specs.Line.{longest_line};
ghost use Rattle.meshlines.specs.MeshLines.{point_numbers, points_text, triangle_numbers, triangles_text};

use writing::{fields_length, write_lettered};

// The numbers of a point's line.
fn point_numbers(points: &[u32], edges: &[u32], marks: &[u8], i: usize) -> [u32; 5]
    requires { (3 * i + 2 < length points.now) × (i < length edges.now) × (i < length marks.now) }
    ensures { result ≡ point_numbers points.now edges.now marks.now i }
{
    let at = 3 * i;
    [
        edges[i],
        points[at],
        points[at + 1],
        points[at + 2],
        marks[i] as u32,
    ]
}

// How many bytes the lines of the first `v` points take.
pub fn points_length(points: &[u32], edges: &[u32], marks: &[u8], v: usize) -> usize
    requires { (3 * v ≤ length points.now) × (v ≤ length edges.now) × (v ≤ length marks.now) × (v ≤ most_points) }
    ensures length { result ≡ length (points_text points.now edges.now marks.now v) }
    ensures small { result ≤ longest_line 5 * v }
{
    let mut sum = 0;
    for i in 0..v {
        let numbers = point_numbers(points, edges, marks, i);
        sum += 2 + fields_length(&numbers);
    }
    sum
}

// Writes the lines of the first `v` points, and answers the place behind them.
pub fn write_points(
    points: &[u32],
    edges: &[u32],
    marks: &[u8],
    v: usize,
    room: &mut [u8],
    from: usize,
) -> usize
    requires v_in_bounds { (3 * v ≤ length points.now) × (v ≤ length edges.now) × (v ≤ length marks.now) × (v ≤ most_points) }
    requires v_in_bounds_2 { from + length (points_text points.now edges.now marks.now v) ≤ length room.old }
    ensures place { result ≡ from + length (points_text points.now edges.now marks.now v) }
    ensures text { room.new ≡ sets room.old from (points_text points.now edges.now marks.now v) }
{
    let mut at = from;
    for i in 0..v {
        let numbers = point_numbers(points, edges, marks, i);
        at = write_lettered(b'V', &numbers, room, at);
    }
    at
}

// The numbers of a triangle's line. Triangles have two loops of their own below. One over both kinds of line was tried, with a closure that gives the numbers of line i, and the proof did not close: its bound `Fn(usize) -> [u32; N]` names a const parameter, which the borrow checker does not cover yet. Each of the four closures would also state its `requires` again, so that the text would be longer than the loops.
fn triangle_numbers(triangles: &[u32], i: usize) -> [u32; 3]
    requires { 3 * i + 2 < length triangles.now }
    ensures { result ≡ triangle_numbers triangles.now i }
{
    let at = 3 * i;
    [triangles[at], triangles[at + 1], triangles[at + 2]]
}

// How many bytes the lines of the first `t` triangles take.
pub fn triangles_length(triangles: &[u32], t: usize) -> usize
    requires { (3 * t ≤ length triangles.now) × (t ≤ most_triangles) }
    ensures length { result ≡ length (triangles_text triangles.now t) }
    ensures small { result ≤ longest_line 3 * t }
{
    let mut sum = 0;
    for i in 0..t {
        let numbers = triangle_numbers(triangles, i);
        sum += 2 + fields_length(&numbers);
    }
    sum
}

// Writes the lines of the first `t` triangles, and answers the place behind them.
pub fn write_triangles(triangles: &[u32], t: usize, room: &mut [u8], from: usize) -> usize
    requires t_in_bounds { (3 * t ≤ length triangles.now) × (t ≤ most_triangles) }
    requires t_in_bounds_2 { from + length (triangles_text triangles.now t) ≤ length room.old }
    ensures place { result ≡ from + length (triangles_text triangles.now t) }
    ensures text { room.new ≡ sets room.old from (triangles_text triangles.now t) }
{
    let mut at = from;
    for i in 0..t {
        let numbers = triangle_numbers(triangles, i);
        at = write_lettered(b'T', &numbers, room, at);
    }
    at
}
