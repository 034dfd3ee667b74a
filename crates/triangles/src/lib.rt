// The triangles of a grid, written cube by cube from the words of its rows.

#![tactic(auto)]

ghost use Rattle.std.specs.Prelude.{◌≡◌, map, ◌+◌, ◌*◌, ◌≤◌, ◌<◌, length, get_or};
ghost use Rattle.std.proofs.lemmas.List.Edits.{sets};
ghost use Rattle.laws.specs.Room.{laid};
ghost use Rattle.laws.specs.Mesh.{flat};
ghost use Rattle.cube.specs.Cube.{cube_edges};
ghost use Rattle.grid.specs.Limits.{most_side};
ghost use Rattle.grid.specs.Grid.{axes, edge_count};
ghost use Rattle.grid.specs.Mode.{cubes};
ghost use Rattle.grid.specs.Mesh.{edge_mesh};
ghost use Rattle.grid.specs.Work.{name_of, Nameable, NamesFit};
ghost use Rattle.rows.specs.Rows.{Whole, Ready, size_of, words_above};
ghost use Rattle.cuberows.specs.Cubes.{FoundIn, FoundCubes};
ghost use Rattle.triangles.specs.Names.{edge_offset, corner_name, cube_names, stretch_names, layer_names};
ghost use Rattle.triangles.specs.Walk.{Read, CornerFits, CubeRoom, StretchRoom, LayerRoom, Written};

use cube::{CASE_LENGTH, CASES, TABLE};
use cuberows::Corners;
use rows::Sides;

// What the walk along the cubes of a grid reads: the table of their triangles, how many each case has, and how far the grid edge of each cube edge is from the first grid edge of the cube's first corner.
#[derive(Clone, Copy)]
pub struct Tables<'a> {
    pub rows: &'a [u8; TABLE],
    pub counts: &'a [u8; CASES],
    pub offsets: &'a [usize; 12],
}

// How far the grid edge of each cube edge is from the first grid edge of the cube's first corner.
pub fn edge_offsets(nx: usize, ny: usize) -> [usize; 12]
    requires { (nx ≤ most_side) × (ny ≤ most_side) }
    ensures { result ≡ map (edge_offset nx ny) cube_edges }
{
    let y = 3 * nx;
    let z = y * ny;
    [0, y, z, y + z, 1, 4, z + 1, z + 4, 2, 5, y + 2, y + 5]
}

// What a grid edge is called: where names are lent the name at its number, else its number.
#[tactic(auto, using(grid::proofs::Named::name_own, grid::proofs::Named::name_listed))]
fn name(names: &[u32], edge: usize) -> u32
    requires { Nameable names.now edge }
    ensures { result ≡ name_of names.now edge }
{
    if names.is_empty() {
        edge as u32
    } else {
        names[edge]
    }
}

// What the grid edge of one corner is called; the corner's cube edge stands in the table at `place`, and `edge` is the first grid edge of the cube's first corner.
fn corner(tables: Tables, names: &[u32], place: usize, edge: usize) -> u32
    requires { CornerFits tables.rows.now tables.offsets.now names.now place edge }
    ensures { result ≡ corner_name tables.entry.offsets.now names.now edge (get_or tables.entry.rows.now place 0) }
{
    let e = tables.rows[place] as usize;
    name(names, edge + tables.offsets[e])
}

// Writes one cube's triangles; `many` is how many there are, and `edge` the first grid edge of the cube's first corner.
fn write_cube(
    tables: Tables,
    names: &[u32],
    triangles: &mut [u32],
    case: usize,
    many: usize,
    edge: usize,
    at: usize,
)
    requires read { Read tables }
    requires cube_room { CubeRoom tables.offsets.now names.now triangles.old case (3 * many) edge at }
    ensures { triangles.new ≡ sets triangles.old at (cube_names tables.entry.offsets.now names.now edge case) }
{
    let from = CASE_LENGTH * case;
    for k in 0..many {
        let place = from + 3 * k;
        let to = at + 3 * k;
        let a = corner(tables, names, place, edge);
        let b = corner(tables, names, place + 1, edge);
        let c = corner(tables, names, place + 2, edge);
        triangles[to] = a;
        triangles[to + 1] = b;
        triangles[to + 2] = c;
    }
}

// Writes the triangles of some cubes of a stretch, a bit each, and answers where it stopped; `edge` is the first grid edge of the stretch's first corner.
fn write_stretch(
    tables: Tables,
    names: &[u32],
    triangles: &mut [u32],
    corners: Corners,
    cubes: u64,
    edge: usize,
    at: usize,
) -> usize
    requires read { Read tables }
    requires stretch_room { StretchRoom tables.offsets.now names.now triangles.old corners cubes edge at }
    ensures { Written triangles.old triangles.new at (stretch_names tables.entry.offsets.now names.now corners cubes edge) result }
{
    let mut busy = cubes;
    let mut to = at;
    while busy != 0 {
        let i = u64::trailing_zeros(busy);
        let here = edge + 3 * (i as usize);
        let case = corners.case(i);
        let many = tables.counts[case] as usize;
        write_cube(tables, names, triangles, case, many, here, to);
        to += 3 * many;
        busy = busy & (busy - 1);
    }
    to
}

// Writes the triangles of a layer of cubes, and answers where it stopped; `found` has words of found cubes, or none at all.
pub fn write_layer(
    tables: Tables,
    masks: &[u64],
    found: &[u64],
    names: &[u32],
    triangles: &mut [u32],
    sides: Sides,
    z: usize,
    from: usize,
) -> usize
    requires read { Read tables }
    requires ready { Ready sides z masks.now }
    requires z_bound { z + 1 < sides.nz }
    requires found_in { FoundIn (size_of sides) (words_above sides masks.now) found.now z }
    requires layer_room { LayerRoom tables.offsets.now names.now triangles.old sides masks.now z from }
    ensures { Written triangles.old triangles.new from (layer_names tables.entry.offsets.now names.now sides masks.now z) result }
{
    let mut at = rows::first(sides, z);
    let mut to = from;
    while at.y + 1 < sides.ny {
        let corners = cuberows::corners_at(sides, at.word, masks);
        let cubes = rows::cubes_mask(sides, at.left);
        let busy = cuberows::busy_cubes(found, at.y, z, corners, cubes);
        let edge = 3 * at.s;
        to = write_stretch(tables, names, triangles, corners, busy, edge, to);
        at = rows::next(sides, at);
    }
    to
}

// Writes the triangles to the front of their room, each corner as its grid edge is called: `names` has a name for each grid edge, or none at all. `found` has words of found cubes, or none at all.
pub fn write(sides: Sides, masks: &[u64], found: &[u64], names: &[u32], triangles: &mut [u32])
    requires whole { Whole sides masks.now }
    requires found_cubes { FoundCubes (size_of sides) (words_above sides masks.now) found.now }
    requires names_fit { NamesFit (edge_count axes (size_of sides)) names.now }
    requires masks_in_bounds { 3 * length (edge_mesh cubes (size_of sides) (words_above sides masks.now)) ≤ length triangles.old }
    ensures { let corners = flat (edge_mesh cubes (size_of sides) (words_above sides masks.now)) in
        triangles.new ≡ laid (map (name_of names.now) corners) triangles.old }
{
    let rows = cube::rows();
    let counts = cube::counts();
    let offsets = edge_offsets(sides.nx, sides.ny);
    let tables = Tables {
        rows: &rows,
        counts: &counts,
        offsets: &offsets,
    };
    let last = sides.nz - 1;
    let mut to = 0;
    for z in 0..last {
        to = write_layer(tables, masks, found, names, triangles, sides, z, to);
    }
}
