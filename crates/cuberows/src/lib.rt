// Cubes by the words of the four rows of samples around them, and the triangles of a grid, counted cube by cube.

#![tactic(auto)]

ghost use Rattle.std.specs.Prelude.{◌≡◌, ◌+◌, ◌*◌, ◌≤◌, ◌<◌, length};
ghost use Rattle.laws.specs.Bits.{word_bits};
ghost use Rattle.cube.specs.Promise.{Counts};
ghost use Rattle.grid.specs.Mode.{cubes};
ghost use Rattle.grid.specs.Mesh.{edge_mesh};
ghost use Rattle.grid.specs.Work.{found_row};
ghost use Rattle.rows.specs.Rows.{Whole, Ready, size_of, words_above};
ghost use Rattle.cuberows.specs.Cubes.{corners_at, read_case, BusyCubes, RowFound, FoundIn, FoundCubes, stretch_count, layer_count};

use cube::CASES;
use grid::limits::MOST_SIDE;
use rows::Sides;

// A case of a cube's four lower corners is below this.
const FOUR_CORNERS: u64 = 16;

// Rows of cubes that a layer of found words has places for, whatever the sides of the grid are.
const FOUND_ROWS: usize = MOST_SIDE as usize;

// The words of the four rows of samples around a stretch of cubes: of the cubes' own y and z, and one on along y, along z and along both.
#[derive(Clone, Copy)]
pub struct Corners {
    pub m00: u64,
    pub m10: u64,
    pub m01: u64,
    pub m11: u64,
}

impl Corners {
    // The case of a cube.
    pub fn case(self, i: u32) -> usize
        requires { i < word_bits }
        ensures { result ≡ read_case self i }
    {
        let low = (self.m00 >> i) % 4 + 4 * ((self.m10 >> i) % 4);
        let high = (self.m01 >> i) % 4 + 4 * ((self.m11 >> i) % 4);
        (low + FOUR_CORNERS * high) as usize
    }

    // Of some cubes, a bit each, those that are neither all above nor all below; no other has a triangle.
    fn busy(self, cubes: u64) -> u64
        ensures { BusyCubes self cubes result }
    {
        let m = self.m00;
        let apart = (m ^ self.m10) | (m ^ self.m01) | (m ^ self.m11);
        (apart | (apart / 2) | (m ^ (m / 2))) & cubes
    }
}

// The words around the cubes whose first corners' word is at a place.
pub fn corners_at(sides: Sides, word: usize, masks: &[u64]) -> Corners
    requires { word + sides.words * sides.ny + sides.words < length masks.now }
    ensures { result ≡ corners_at masks.now sides.words sides.ny word }
{
    let over = word + sides.words * sides.ny;
    let behind = word + sides.words;
    let both = over + sides.words;
    Corners {
        m00: masks[word],
        m10: masks[behind],
        m01: masks[over],
        m11: masks[both],
    }
}

// Of some cubes of a stretch those to walk: where words of found cubes are lent its row's own word, else those that are neither all above nor all below.
pub fn busy_cubes(found: &[u64], y: usize, z: usize, corners: Corners, cubes: u64) -> u64
    requires { (length found.now ≡ 0 → ⊥) → RowFound found.now (found_row y z) corners cubes }
    ensures { BusyCubes corners cubes result }
{
    if found.is_empty() {
        corners.busy(cubes)
    } else {
        found[y + FOUND_ROWS * z]
    }
}

// How many triangles some cubes of a stretch have, a bit each.
fn count_stretch(counts: &[u8; CASES], corners: Corners, cubes: u64) -> u32
    requires { Counts counts.now }
    ensures { result ≡ stretch_count corners cubes }
{
    let mut busy = cubes;
    let mut sum = 0;
    while busy != 0 {
        let case = corners.case(u64::trailing_zeros(busy));
        sum += counts[case] as u32;
        busy = busy & (busy - 1);
    }
    sum
}

// How many triangles a layer of cubes has; `found` has words of found cubes, or none at all.
pub fn count_layer(
    counts: &[u8; CASES],
    sides: Sides,
    z: usize,
    masks: &[u64],
    found: &[u64],
) -> u32
    requires counts { Counts counts.now }
    requires ready { Ready sides z masks.now }
    requires z_bound { z + 1 < sides.nz }
    requires found_in { FoundIn (size_of sides) (words_above sides masks.now) found.now z }
    ensures { result ≡ layer_count sides masks.now z }
{
    let mut at = rows::first(sides, z);
    let mut sum = 0;
    while at.y + 1 < sides.ny {
        let corners = corners_at(sides, at.word, masks);
        let cubes = rows::cubes_mask(sides, at.left);
        let busy = busy_cubes(found, at.y, z, corners, cubes);
        sum += count_stretch(counts, corners, busy);
        at = rows::next(sides, at);
    }
    sum
}

// How many triangles the grid has; `found` has words of found cubes, or none at all.
pub fn count(sides: Sides, masks: &[u64], found: &[u64]) -> u32
    requires whole { Whole sides masks.now }
    requires found_cubes { FoundCubes (size_of sides) (words_above sides masks.now) found.now }
    ensures { result ≡ length (edge_mesh cubes (size_of sides) (words_above sides masks.now)) }
{
    let counts = cube::counts();
    let last = sides.nz - 1;
    let mut sum = 0;
    for z in 0..last {
        sum += count_layer(&counts, sides, z, masks, found);
    }
    sum
}
