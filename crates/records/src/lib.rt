// A shell's record by value: one point more, one triangle more.

#![tactic(auto)]

ghost use Rattle.std.specs.Prelude.{◌≡◌, true, cond, eqb, ◌+◌, ◌*◌, ◌<◌, ◌≤◌, min, max, length, get_or};
ghost use Rattle.grid.specs.Limits.{most_points};
ghost use Rattle.mesh.specs.Mesh.{triangle_count, triangle_at};
ghost use Rattle.mesh.specs.Place.{place_of};
ghost use Rattle.mesh.specs.Check.{triangles_fit};
ghost use Rattle.shellnumbers.specs.Numbering.{number_of};
ghost use Rattle.records.specs.Record.{sixfold as sixfoldOf};
ghost use Rattle.records.specs.Grown.{none, widened, with_point, with_triangle, PointFits, TriangleFits, MeshFits};

pub mod volume;

#[repr(C)]
#[derive(Clone, Copy)]
pub struct Shell {
    pub low: u32,
    pub points: u32,
    pub triangles: u32,
    pub touches: u32,
    pub volume: i64,
    pub least_x: u32,
    pub greatest_x: u32,
    pub least_y: u32,
    pub greatest_y: u32,
    pub least_z: u32,
    pub greatest_z: u32,
}

// A record with nothing in it.
pub fn blank() -> Shell
    ensures { result ≡ none }
{
    Shell {
        low: 0,
        points: 0,
        triangles: 0,
        touches: 0,
        volume: 0,
        least_x: 0,
        greatest_x: 0,
        least_y: 0,
        greatest_y: 0,
        least_z: 0,
        greatest_z: 0,
    }
}

// The shell number of point i.
pub fn number_at(numbers: &[u32], i: usize) -> usize
    requires { i < length numbers.now }
    ensures { result ≡ number_of numbers.now i }
{
    numbers[i] as usize
}

// The lowest of a shell's points: the first one that is added.
fn lowest(points: u32, low: u32, i: usize) -> u32
    requires { i < most_points }
    ensures { result ≡ cond (eqb points 0) i low }
{
    if points == 0 { i as u32 } else { low }
}

// 1 once a marked point was added.
fn touched(mark: u8, touches: u32) -> u32
    ensures { result ≡ cond (eqb mark 1) 1 touches }
{
    if mark == 1 { 1 } else { touches }
}

// The least coordinate along an axis, with one point more, which stands at x: the first point sets it.
fn least(points: u32, had: u32, x: u32) -> u32
    ensures { result ≡ widened points min had x }
{
    if points == 0 { x } else { had.min(x) }
}

// The greatest, likewise. One function for both is no plainer: each of its six calls would have to say which of min and max it means.
fn greatest(points: u32, had: u32, x: u32) -> u32
    ensures { result ≡ widened points max had x }
{
    if points == 0 { x } else { had.max(x) }
}

// One point more, by value.
pub fn with_point(s: Shell, points: &[u32], marks: &[u8], i: usize) -> Shell
    requires { PointFits s × (3 * i + 2 < length points.now) × (i < length marks.now) × (length marks.now ≤ most_points) }
    ensures { result ≡ with_point i (place_of points.now i) (get_or marks.now i 0) s }
{
    let at = mesh::place_of(points, i);
    Shell {
        low: lowest(s.points, s.low, i),
        points: s.points + 1,
        touches: touched(marks[i], s.touches),
        least_x: least(s.points, s.least_x, at.x),
        greatest_x: greatest(s.points, s.greatest_x, at.x),
        least_y: least(s.points, s.least_y, at.y),
        greatest_y: greatest(s.points, s.greatest_y, at.y),
        least_z: least(s.points, s.least_z, at.z),
        greatest_z: greatest(s.points, s.greatest_z, at.z),
        ..s
    }
}

// One triangle more, by value.
pub fn with_triangle(s: Shell, points: &[u32], triangles: &[u32], k: usize) -> Shell
    requires { TriangleFits (sixfoldOf points.now (triangle_at triangles.now k)) s × MeshFits points.now triangles.now × (k < triangle_count triangles.now) }
    ensures { result ≡ with_triangle (sixfoldOf points.now (triangle_at triangles.now k)) s }
{
    let volume = laws::signed::sum(s.volume, volume::sixfold(points, triangles, k));
    Shell {
        triangles: s.triangles + 1,
        volume,
        ..s
    }
}

// The shell number of triangle k: that of its first corner.
pub fn number_of(numbers: &[u32], triangles: &[u32], k: usize) -> usize
    requires { (triangles_fit triangles.now (length numbers.now) ≡ true) × (k < triangle_count triangles.now) }
    ensures { result ≡ number_of numbers.now (triangle_at triangles.now k).one }
{
    number_at(numbers, triangles[3 * k] as usize)
}
