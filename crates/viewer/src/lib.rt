// The C functions that a viewer links, but for those on texts. Each is a thin call of the one below it.

#![tactic(auto)]

ghost use Rattle.cube.specs.Promise.{Counted, EdgeRead};
ghost use Rattle.grid.specs.Mode.{cubes};
ghost use Rattle.extract.specs.Promise.{rooms, left, Extracts};
ghost use Rattle.smooth.specs.Promise.{Smooths};
ghost use Rattle.show.specs.Promise.{Shows};
ghost use Rattle.curvature.specs.Promise.{left as curvesLeft, Curves, Tells};
ghost use Rattle.shellnumbers.specs.Lists.{left as shellsLeft};
ghost use Rattle.shelllist.specs.Promise.{Shells};
ghost use Rattle.std.specs.Prelude.{[], ◌∷◌};

use cube::CASE_LENGTH;
use extract::Extracted;
use grid::refusal::told;
use mesh::Mesh;
use records::Shell;

// What a refusal counts.
const NO_MESH: Extracted = Extracted {
    points: 0,
    triangles: 0,
};

// How many triangles a case has: 0 to 5.
#[unsafe(no_mangle)]
pub extern "C" fn tholbrina_case_count(case: u8) -> u8
    ensures { Counted case result }
{
    cube::count(case)
}

// The edge number at a place, 0 to 14, of a case's five triangles; 0 at any place beyond.
#[unsafe(no_mangle)]
pub extern "C" fn tholbrina_case_edge(case: u8, place: u32) -> u8
    ensures { EdgeRead case place result }
{
    if CASE_LENGTH <= place as usize {
        return 0;
    }
    let rows = cube::rows();
    let at = (case as usize) * CASE_LENGTH + (place as usize);
    rows[at]
}

// The mesh of a grid at one grey value, into lent rooms. Answers 0 if granted, else the refusal's number; the counts are 0 after a refusal.
#[unsafe(no_mangle)]
pub extern "C" fn tholbrina_extract(
    nx: u32,
    ny: u32,
    nz: u32,
    grey: u16,
    samples: &[u16],
    points: &mut [u32],
    edges: &mut [u32],
    marks: &mut [u8],
    triangles: &mut [u32],
    work: &mut [u32],
    point_count: &mut u32,
    triangle_count: &mut u32,
) -> u32
    ensures { let before = rooms points.old edges.old marks.old triangles.old work.old in
        let after = rooms points.new edges.new marks.new triangles.new work.new in
        Extracts cubes nx ny nz grey samples.now before (left result point_count.new triangle_count.new after) }
{
    let done = extract::extract(
        nx, ny, nz, grey, samples, points, edges, marks, triangles, work,
    );
    let counts = done.unwrap_or(NO_MESH);
    *point_count = counts.points;
    *triangle_count = counts.triangles;
    told(done)
}

// Rounds of smoothing into the second point list. Answers 0 if granted, else the refusal's number.
#[unsafe(no_mangle)]
pub extern "C" fn tholbrina_smooth(
    points: &[u32],
    triangles: &[u32],
    marks: &[u8],
    rounds: u32,
    weight: u32,
    smoothed: &mut [u32],
    work: &mut [u32],
) -> u32
    ensures { Smooths points.now triangles.now marks.now rounds weight
        smoothed.old work.old result smoothed.new work.new }
{
    let mesh = Mesh {
        points,
        triangles,
        marks,
    };
    told(smooth::smooth(mesh, rounds, weight, smoothed, work))
}

// One point's coordinates out of the raw list, or out of the smoothed one if `second` is not 0. Answers 0 if granted, else the
// refusal's number; x, y and z stay after a refusal.
#[unsafe(no_mangle)]
pub extern "C" fn tholbrina_show<'a>(
    raw: &'a [u32],
    smoothed: &'a [u32],
    second: u32,
    point: u32,
    x: &mut u32,
    y: &mut u32,
    z: &mut u32,
) -> u32
    ensures { let held = x.old ∷ y.old ∷ z.old ∷ [] in
        let after = x.new ∷ y.new ∷ z.new ∷ [] in
        Shows raw.now smoothed.now second point held result after }
{
    match show::show(raw, smoothed, second != 0, point) {
        Ok(part) => {
            *x = part[0];
            *y = part[1];
            *z = part[2];
            0
        }
        Err(refusal) => refusal.number(),
    }
}

// Corner areas and mean curvature vectors into the two lent rooms. Answers 0 if granted, else the refusal's number.
#[unsafe(no_mangle)]
pub extern "C" fn tholbrina_curvature(
    points: &[u32],
    triangles: &[u32],
    marks: &[u8],
    areas: &mut [f64],
    vectors: &mut [f64],
) -> u32
    ensures { let after = curvesLeft result areas.new vectors.new in
        Curves points.now triangles.now marks.now areas.old vectors.old after }
{
    let mesh = Mesh {
        points,
        triangles,
        marks,
    };
    told(curvature::curvature(mesh, areas, vectors))
}

// One point's answer: its kind, 0 open, 1 flat, 2 bent, its area and its vector; what a kind does not have is +0.0. Answers 0 if granted, else the
// refusal's number; the five stay after a refusal.
#[unsafe(no_mangle)]
pub extern "C" fn tholbrina_answer(
    marks: &[u8],
    areas: &[f64],
    vectors: &[f64],
    point: u32,
    kind: &mut u32,
    area: &mut f64,
    x: &mut f64,
    y: &mut f64,
    z: &mut f64,
) -> u32
    ensures { let held = area.old ∷ x.old ∷ y.old ∷ z.old ∷ [] in
        let after = area.new ∷ x.new ∷ y.new ∷ z.new ∷ [] in
        Tells marks.now areas.now vectors.now point kind.old held result kind.new after }
{
    match curvature::read_back(marks, areas, vectors, point) {
        Err(refusal) => refusal.number(),
        Ok(answer) => {
            let plain = curvature::told(answer);
            *kind = plain.kind;
            *area = plain.area;
            *x = plain.vector.x;
            *y = plain.vector.y;
            *z = plain.vector.z;
            0
        }
    }
}

// The shell number of every point and one record a shell, into lent rooms. Answers 0 if granted, else the refusal's number; the count of shells is 0
// after a refusal.
#[unsafe(no_mangle)]
pub extern "C" fn tholbrina_shells(
    points: &[u32],
    triangles: &[u32],
    marks: &[u8],
    numbers: &mut [u32],
    records: &mut [Shell],
    work: &mut [u32],
    shell_count: &mut u32,
) -> u32
    ensures { let after = shellsLeft result shell_count.new numbers.new work.new in
        Shells points.now triangles.now marks.now numbers.old work.old records.old after records.new }
{
    let mesh = Mesh {
        points,
        triangles,
        marks,
    };
    let listed = shells::shells(mesh, numbers, records, work);
    *shell_count = listed.unwrap_or(0) as u32;
    told(listed)
}
